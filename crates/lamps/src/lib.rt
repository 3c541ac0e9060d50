// The two lamps: each is lit where its zone has a cell that is an end of a link of the window and joined to no body cell (RULES 11). The
// window's links are gone over once, by the crate window_ends; which of them chain what is told by the smallest cells of groups.
#![tactic(auto)]

mod body; // body.rt: the body mask, and the groups that it marks
mod zone; // zone.rt: the lamp of a zone

ghost use Rattle.std.specs.Prelude.{◌≡◌};
ghost use Rattle.lamps.specs.Lamps.{told, lamps_of};

use book_state::Book;
use refusals::Refusal;
use window::Window;
use zone::Zone;

// A mask has a place for each cell, and so have the arrays that tell of cells.
pub const CELLS: usize = 1024;

// Sectors 33 to 63 are on the left, 1 to 31 on the right.
const LEFT: Zone = Zone { from: 33, end: 64 };

const RIGHT: Zone = Zone { from: 1, end: 32 };

// Of each lamp, the smallest cell that lights it; None while it is dark.
#[derive(Clone, Copy)]
pub struct Lamps {
    pub left: Option<u16>,
    pub right: Option<u16>,
}

// The same for the interface: whether each lamp is lit, and the smallest cell that lights it, 0 while it is dark. With a number that is not
// 0 all else is 0.
#[repr(C)]
#[derive(Clone, Copy)]
pub struct LampsAnswer {
    pub left_cell: u16,
    pub right_cell: u16,
    pub left: bool,
    pub right: bool,
    pub number: u8,
}

impl From<Result<Lamps, Refusal>> for LampsAnswer {
    ghost from_gives = { λ lamps answer. answer ≡ told lamps };

    fn from(lamps: Result<Lamps, Refusal>) -> LampsAnswer {
        match lamps {
            Ok(lamps) => LampsAnswer {
                left_cell: lamps.left.unwrap_or(0),
                right_cell: lamps.right.unwrap_or(0),
                left: lamps.left.is_some(),
                right: lamps.right.is_some(),
                number: 0,
            },
            Err(refusal) => LampsAnswer {
                left_cell: 0,
                right_cell: 0,
                left: false,
                right: false,
                number: u8::from(refusal),
            },
        }
    }
}

// The lamps of a book's window: the checks come in the order 1, 6, 15.
#[tactic(auto, using(crate::proofs::Groups::firsts, crate::proofs::Groups::lamp_told, crate::proofs::Mask::mask_long), unfolding(crate::specs::Lamps::lamps_of, crate::specs::Lamps::lamps_by_number, numbers::specs::Checks::first_of))]
pub fn ask(book: &Book, log: &[u16], mask: &[u8]) -> Result<Lamps, Refusal>
    ensures { told result ≡ lamps_of book.now log.now mask.now }
{
    let window = Window::of(book, log)?;
    if !body::is_mask(mask) {
        return Err(Refusal::Mask);
    }
    let ends = window_ends::of_window(window);
    let dark = body::groups(&ends.first, mask);
    Ok(Lamps {
        left: zone::lamp_of(LEFT, &ends, &dark),
        right: zone::lamp_of(RIGHT, &ends, &dark),
    })
}
