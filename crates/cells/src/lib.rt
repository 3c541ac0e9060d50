// The lorry's numbers of a unit's cells, by the way the unit is mounted, and which cells touch (RULES 1).
#![tactic(auto)]

ghost use Rattle.std.specs.Prelude.{◌≡◌};
ghost use Rattle.cells.specs.Cell.{sectors, ring_of, sector_of, mirror, lorry_cell_of, unit_cell_of};
ghost use Rattle.cells.specs.Mounting.{Mounts};
ghost use Rattle.cells.specs.Touching.{touch};

// The way a unit is mounted, by its number: 1 plain, 2 mirrored (RULES 1.3).
#[derive(Clone, Copy, PartialEq, Eq)]
pub enum Mounting {
    Plain,
    Mirrored,
}

// A number that is no mounting's: 0, where it was never set, or another.
#[derive(Clone, Copy, PartialEq, Eq)]
pub struct NoMounting(pub u8);

impl TryFrom<u8> for Mounting {
    type Error = NoMounting;

    ghost try_from_gives = { Mounts };

    fn try_from(number: u8) -> Result<Mounting, NoMounting> {
        match number {
            1 => Ok(Mounting::Plain),
            2 => Ok(Mounting::Mirrored),
            _ => Err(NoMounting(number)),
        }
    }
}

// How a unit is fitted to its lorry. The mounting is a number here, as in a book of the C interface, which may be altered to any.
#[repr(C)]
#[derive(Clone, Copy)]
pub struct Fitting {
    pub mounting: u8,
    // no meaning: every byte is a field's, so that none is left undefined
    pub pad: [u8; 7],
}

// The lorry's number of a mirrored unit's cell: in the same ring, sector (64 - s) mod 64. A number that is no cell comes back
// unchanged.
#[tactic(auto, using(crate::specs::Cell::Laws::mirror_number, crate::specs::Cell::Laws::mirror_other))]
pub fn mirrored(cell: u16) -> u16
    ensures { result ≡ mirror cell }
{
    if cell < 1024 {
        64 * ring(cell) + (64 - sector(cell)) % 64
    } else {
        cell
    }
}

// The lorry's number of a unit's cell: mounting 2 is the mirrored one, and no other changes the number.
#[tactic(auto, unfolding(crate::specs::Cell::lorry_cell_over))]
pub fn lorry_cell(fitting: Fitting, cell: u16) -> u16
    ensures { result ≡ lorry_cell_of fitting cell }
{
    match Mounting::try_from(fitting.mounting) {
        Ok(Mounting::Mirrored) => mirrored(cell),
        _ => cell,
    }
}

// The unit's number of a lorry's cell, the other way round. Mirroring twice changes nothing, so the way back is the way there.
pub fn unit_cell(fitting: Fitting, cell: u16) -> u16
    ensures { result ≡ unit_cell_of fitting cell }
{
    lorry_cell(fitting, cell)
}

// The ring of a cell, and its sector.
pub fn ring(cell: u16) -> u16
    ensures { result ≡ ring_of sectors cell }
{
    cell / 64
}

pub fn sector(cell: u16) -> u16
    ensures { result ≡ sector_of sectors cell }
{
    cell % 64
}

// Whether two cells touch. Rings end, and sectors go round: the last and the first differ by 63 and are next to each other.
#[tactic(auto, unfolding(crate::specs::Touching::touch_over))]
pub fn touch(one: u16, other: u16) -> bool
    ensures { result ≡ touch one other }
{
    let apart = sector(one).abs_diff(sector(other));
    one != other && ring(one).abs_diff(ring(other)) <= 1 && (apart <= 1 || apart == 63)
}
