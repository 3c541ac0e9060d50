// The state: the book of links for one lidar unit and its log, as data. What the fields are, when they are in order (number
// 1), and where a slide's links are counted and logged. The calls that change it are in the crate book.
#![tactic(auto)]

pub mod order; // order.rt: number 1, whether a book's fields are in their ranges and its walks within their steps
pub mod spots; // spots.rt: where the links of a slide are counted and logged

ghost use Rattle.std.specs.Prelude.{◌≡◌};
ghost use Rattle.numbers.specs.Checks.{has};
ghost use Rattle.book_state.specs.Numbers.{are_cells_of, log_places};
ghost use Rattle.book_state.specs.Order.{never_opened_of};

use forest::PLACES;

// How many cells a book has, and how many steps number 1 allows a walk.
pub const CELLS: u16 = 1024;

pub const STEP_LIMIT: u8 = 10;

// Whether both are cells: number 3 asks it of a call's cells, and a pair of the log is a link where it is so.
pub fn are_cells(one: u16, other: u16) -> bool
    ensures { result ≡ are_cells_of one other }
{
    one < CELLS && other < CELLS
}

// How many places a log has, at least.
pub const LOG_PLACES: usize = 16384;

// Whether a log has them: number 6 asks it.
#[tactic(auto, using(numbers::proofs::Checks::has_length))]
pub fn has_room(log: &[u16]) -> bool
    ensures { result ≡ has log_places log.now }
{
    LOG_PLACES <= log.len()
}

// The settings and the total of the ticks, the links stored in each place of the last two chunks, and the two forests.
#[repr(C)]
#[derive(Clone, Copy)]
pub struct Book {
    // forward forest of the open chunk
    pub forward_parent: [u16; PLACES],
    pub forward_size: [u16; PLACES],
    // backward forest of the chunk before
    pub backward_parent: [u16; PLACES],
    pub backward_size: [u16; PLACES],
    // links stored, at half * 16 + place; half = chunk mod 2
    pub counts: [u16; 32],
    pub clock: slides::Clock,
    pub backward_label: [u8; PLACES],
    pub fitting: cells::Fitting,
}

// A book that was never opened: it is not in order (RULES 7.8).
#[tactic(auto, unfolding(crate::specs::Order::never_opened_of))]
pub fn never_opened() -> Book
    ensures { result ≡ never_opened_of }
{
    let clock = slides::Clock {
        total: 0,
        t0: 0,
        b: 0,
        n: 0,
        pad: [0; 7],
    };
    let fitting = cells::Fitting {
        mounting: 0,
        pad: [0; 7],
    };
    Book {
        forward_parent: [0; PLACES],
        forward_size: [0; PLACES],
        backward_parent: [0; PLACES],
        backward_size: [0; PLACES],
        counts: [0; 32],
        clock,
        backward_label: [0; PLACES],
        fitting,
    }
}
