// The lamp of a zone, by what is known of each cell: the smallest cell of its group, whether it is an end of a link, and at smallest
// cells whether the group has a body cell.
ghost use Rattle.std.specs.Prelude.{◌≡◌, ◌<◌};
ghost use Rattle.book_state.specs.Arrays.{cells};
ghost use Rattle.cells.specs.Cell.{sectors};
ghost use Rattle.lamps.specs.Zones.{in_zone_of};
ghost use Rattle.lamps.specs.Lamps.{lamp_from};
ghost use Rattle.lamps.specs.Groups.{Firsts, lights_by};

use super::CELLS;
use window_ends::Ends;

// Rings 0 to 5, and the sectors from the first up to, and without, the end.
#[derive(Clone, Copy)]
pub struct Zone {
    pub from: u16,
    pub end: u16,
}

// The smallest cell of the zone that lights its lamp. Six rings have 384 cells.
#[tactic(auto, using(crate::proofs::Search::lamp_found, crate::proofs::Search::lamp_past, crate::proofs::Beyond::lamp_beyond))]
pub fn lamp_of(zone: Zone, ends: &Ends, dark: &[u8; CELLS]) -> Option<u16>
    requires { Firsts ends.now.first }
    ensures { result ≡ lamp_from (lights_by (record { from = zone.from; end = zone.end }) ends.now.first ends.now.linked dark.now) 0 cells }
{
    for cell in 0..384 {
        if lights(zone, ends, dark, cell) {
            return Some(cell);
        }
    }
    None
}

// Whether the cell lights the lamp.
fn lights(zone: Zone, ends: &Ends, dark: &[u8; CELLS], cell: u16) -> bool
    requires { Firsts ends.now.first × (cell < cells) }
    ensures { result ≡ lights_by (record { from = zone.from; end = zone.end }) ends.now.first ends.now.linked dark.now cell }
{
    let at = cell as usize;
    let group = ends.first[at] as usize;
    ends.linked[at] != 0 && in_zone(zone, cell) && dark[group] == 0
}

// Whether the cell is in a ring and a sector of the zone.
#[tactic(auto, unfolding(crate::specs::Zones::in_zone_of))]
fn in_zone(zone: Zone, cell: u16) -> bool
    ensures { result ≡ in_zone_of sectors (record { from = zone.from; end = zone.end }) cell }
{
    let sector = cells::sector(cell);
    cells::ring(cell) < 6 && zone.from <= sector && sector < zone.end
}
