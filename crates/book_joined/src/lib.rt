// The joined call: four walks, always all four; and where neither forest alone decides, the crossing.
#![tactic(auto)]

ghost use Rattle.std.specs.Prelude.{◌≡◌, Ok, cond, not, ◌&&◌, ◌+◌, ◌≤◌, ◌<◌, true, eqb, ltb, length};
ghost use Rattle.graph.specs.Link.{chains};
ghost use Rattle.forest.specs.Arrays.{parent_in, parent_at_in};
ghost use Rattle.slides.specs.Clock.{place_of, open_slide_of};
ghost use Rattle.book_state.specs.Arrays.{cells};
ghost use Rattle.book_state.specs.Numbers.{are_cells_of};
ghost use Rattle.book_state.specs.Order.{in_order_of};
ghost use Rattle.book_joined.specs.Alone.{spares, alone_in_of};
ghost use Rattle.book_joined.specs.Joined.{cut_of, step_links_of, answer_of, joined_of};
ghost use Rattle.book_joined.specs.Told.{told};

use book_state::{Book, CELLS, STEP_LIMIT, are_cells};
use refusals::Refusal;
use slides::Clock;

// Whether the window's links join two cells, and the steps of the walks.
#[derive(Clone, Copy)]
pub struct Joined {
    pub yes: bool,
    pub steps: u8,
}

// The same for the interface, with the number of the table; with a number that is not 0 all else is 0.
#[repr(C)]
#[derive(Clone, Copy)]
pub struct JoinedAnswer {
    pub number: u8,
    pub yes: bool,
    pub steps: u8,
}

impl From<Result<Joined, Refusal>> for JoinedAnswer {
    ghost from_gives = { λ joined answer. answer ≡ told joined };

    fn from(joined: Result<Joined, Refusal>) -> JoinedAnswer {
        match joined {
            Ok(joined) => JoinedAnswer {
                number: 0,
                yes: joined.yes,
                steps: joined.steps,
            },
            Err(refusal) => JoinedAnswer {
                number: u8::from(refusal),
                yes: false,
                steps: 0,
            },
        }
    }
}

// The joined call: the checks come in the order 1, 3.
#[tactic(auto, using(book_state::proofs::Checks::two_cells, crate::proofs::Asked::askable), unfolding(crate::specs::Joined::joined_of, crate::specs::Joined::joined_number_of, crate::specs::Joined::joined_by_number, crate::specs::Joined::step_links, crate::specs::Joined::four_walks, numbers::specs::Checks::first_of))]
pub fn ask(book: &Book, one: u16, other: u16) -> Result<Joined, Refusal>
    ensures { told result ≡ joined_of book.now one other }
{
    if !book.in_order() {
        return Err(Refusal::OutOfOrder);
    }
    if !are_cells(one, other) {
        return Err(Refusal::NoCell);
    }
    Ok(answer(book, one, other))
}

// The cut of the backward forest: one above the open slide's place.
fn cut(clock: Clock) -> u8
    ensures { result ≡ place_of clock (open_slide_of clock) + 1 }
{
    slides::place(clock, slides::open_slide(clock)) + 1
}

// The answer for two cells of a book in order.
fn answer(book: &Book, one: u16, other: u16) -> Joined
    requires ordered { in_order_of book.now ≡ true }
    requires two { are_cells_of one other ≡ true }
    ensures { told (Ok result) ≡ answer_of (cut_of book.now) book.now.backward_parent book.now.backward_label book.now.forward_parent one other }
{
    let cut = cut(book.clock);
    let backward_one = forest_walk::walk_at(
        &book.backward_parent,
        &book.backward_label,
        STEP_LIMIT,
        cut,
        one,
    );
    let backward_other = forest_walk::walk_at(
        &book.backward_parent,
        &book.backward_label,
        STEP_LIMIT,
        cut,
        other,
    );
    let forward_one = forest_walk::walk(&book.forward_parent, STEP_LIMIT, one);
    let forward_other = forest_walk::walk(&book.forward_parent, STEP_LIMIT, other);
    let backward_steps = backward_one.steps + backward_other.steps;
    let steps = backward_steps + forward_one.steps + forward_other.steps;
    if backward_one.root == backward_other.root {
        return Joined { yes: true, steps };
    }
    if forward_one.root == forward_other.root {
        return Joined { yes: true, steps };
    }
    let yes = across(book, cut, one, other);
    Joined { yes, steps }
}

// Whether one cell leads across to the other, from group to group of the two forests.
fn across(book: &Book, cut: u8, one: u16, other: u16) -> bool
    requires ordered { in_order_of book.now ≡ true }
    requires above { 1 ≤ cut }
    requires two { are_cells_of one other ≡ true }
    ensures { result ≡ chains (step_links_of cut book.now.backward_parent book.now.backward_label book.now.forward_parent) one other }
{
    let backward = &book.backward_parent;
    let label = &book.backward_label;
    let forward = &book.forward_parent;
    // A cell that stands alone is spared the crossing.
    if alone(book, cut, one) || alone(book, cut, other) {
        return one == other;
    }
    forest_cross::joined_across(backward, label, forward, STEP_LIMIT, cut, one, other)
}

// Whether no parent step leaves or reaches the cell, in either forest. Two passes tell, which cost less than the lists of
// all cells; a cell that takes a step itself is spared them. At cut 0 every step is taken, whatever its label.
fn alone(book: &Book, cut: u8, cell: u16) -> bool
    requires { cell < cells }
    ensures { result ≡ alone_in_of (parent_at_in book.now.backward_parent book.now.backward_label cut) cell && alone_in_of (parent_in book.now.forward_parent) cell }
{
    if goes(&book.backward_parent, &book.backward_label, cut, cell) {
        return false;
    }
    if goes(&book.forward_parent, &book.backward_label, 0, cell) {
        return false;
    }
    alone_in(&book.backward_parent, &book.backward_label, cut, cell)
        && alone_in(&book.forward_parent, &book.backward_label, 0, cell)
}

// Whether the cell takes a step at the cut.
fn goes(parent: &[u16], label: &[u8], cut: u8, cell: u16) -> bool
    ensures { result ≡ not (eqb (parent_at_in parent.now label.now cut cell) cell) }
{
    let step = forest_walk::walk_at(parent, label, 1, cut, cell);
    step.root != cell
}

// Whether no step of one forest at a cut leaves or reaches the cell. The pass counts, in the width of the cells, and goes on, with no way out: so a machine can do several
// cells at a time.
fn alone_in(parent: &[u16], label: &[u8], cut: u8, asked: u16) -> bool
    requires { (length parent.now ≡ cells) × (length label.now ≡ cells) }
    ensures { result ≡ alone_in_of (parent_at_in parent.now label.now cut) asked }
{
    let mut steps: u16 = 0;
    for cell in 0..CELLS {
        let at = cell as usize;
        steps += touch(asked, cell, parent[at], label[at], cut);
    }
    steps == 0
}

// 1 where this cell's step leaves or reaches the cell asked for, and else 0.
fn touch(asked: u16, cell: u16, parent: u16, label: u8, cut: u8) -> u16
    ensures { result ≡ cond (spares asked cell (cond (ltb label cut) cell parent)) 0 1 }
{
    if spares(asked, cell, parent, label, cut) {
        0
    } else {
        1
    }
}

// Whether the cell asked for is this cell and its own parent at the cut, or neither this cell nor its parent. The label is
// asked last: labels are hard to foresee for the processor, and few cells come so far.
fn spares(asked: u16, cell: u16, parent: u16, label: u8, cut: u8) -> bool
    ensures { result ≡ spares asked cell (cond (ltb label cut) cell parent) }
{
    (cell == asked) == (parent == asked) || label < cut
}
