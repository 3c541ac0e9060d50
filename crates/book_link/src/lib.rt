// The link call: number 1 first, then the other checks; a link that is taken moves the time and is stored in the slide that is open then. Which
// one that is does not follow from the tick alone (RULES 2.4). What the call gives is defined with the other calls (crates/book/specs/Calls.antt).
#![tactic(auto)]

ghost use Rattle.std.specs.Prelude.{◌≡◌, true};
ghost use Rattle.refusals.specs.Number.{number_of};
ghost use Rattle.book_state.specs.Order.{in_order_of};
ghost use Rattle.book.specs.Calls.{Gives, Room, link_number_of, link_of, link_stored};

use book_state::{Book, STEP_LIMIT, are_cells, has_room, spots};
use forest_unite::roots::merge_of;
use forest_unite::{merge_parents, merge_sizes};
use refusals::Refusal;

// A link of two cells of the unit: number 1 is asked first.
#[tactic(auto, unfolding(book::specs::Calls::link_of, book::specs::Calls::link_by_number, book::specs::Calls::link_number_of, numbers::specs::Checks::first_of))]
pub fn link(
    book: &mut Book,
    log: &mut [u16],
    tick: u32,
    one: u16,
    other: u16,
) -> Result<(), Refusal>
    ensures { Gives (link_of book.old log.old tick one other) (record { book = book.new; number = number_of result }) log.new }
{
    if !book.in_order() {
        return Err(Refusal::OutOfOrder);
    }
    link_in_order(book, log, tick, one, other)
}

// The link call for a book that is known to be in order: number 1 is not asked. The time moves first, and only for a link that is
// taken.
#[tactic(auto, using(book::proofs::Taken::taken, book::proofs::Taken::link_room, book_state::proofs::Checks::readable), unfolding(book::specs::Calls::link_of, book::specs::Calls::link_by_number))]
pub fn link_in_order(
    book: &mut Book,
    log: &mut [u16],
    tick: u32,
    one: u16,
    other: u16,
) -> Result<(), Refusal>
    requires { in_order_of book.old ≡ true }
    ensures { Gives (link_of book.old log.old tick one other) (record { book = book.new; number = number_of result }) log.new }
{
    judge(book, log, tick, one, other)?;
    let first = cells::lorry_cell(book.fitting, one);
    let second = cells::lorry_cell(book.fitting, other);
    book_time::move_to(book, log, tick);
    store(book, log, first, second);
    Ok(())
}

// The checks of a book in order: the first that fails, in the order of the table (RULES 7).
#[tactic(auto, unfolding(book::specs::Calls::link_number_of, book_state::specs::Log::stored, numbers::specs::Checks::first_of))]
fn judge(book: &Book, log: &[u16], tick: u32, one: u16, other: u16) -> Result<(), Refusal>
    requires { in_order_of book.now ≡ true }
    ensures { number_of result ≡ link_number_of book.now log.now tick one other }
{
    if !has_room(log) {
        return Err(Refusal::Short);
    }
    if !are_cells(one, other) {
        return Err(Refusal::NoCell);
    }
    if !cells::touch(one, other) {
        return Err(Refusal::Apart);
    }
    if !slides::not_before(book.clock, tick) {
        return Err(Refusal::Late);
    }
    let held = spots::stored(book.clock, &book.counts, slides::slide(book.clock, tick));
    if 256 <= held {
        return Err(Refusal::Full);
    }
    Ok(())
}

// A link of two of the lorry's cells stored in the open slide.
#[tactic(auto, unfolding(book::specs::Calls::link_stored))]
fn store(book: &mut Book, log: &mut [u16], one: u16, other: u16)
    requires { Room book.old.clock book.old.counts log.old }
    ensures { record { book = book.new; log = log.new; number = 0 } ≡ link_stored book.old log.old one other }
{
    let spot = spots::spot(book.clock, slides::open_slide(book.clock));
    let count = book.counts[spot];
    let at = spot * 512 + 2 * (count as usize);
    log[at] = one;
    log[at + 1] = other;
    book.counts[spot] = count + 1;
    let merge = merge_of(
        &book.forward_parent,
        &book.forward_size,
        STEP_LIMIT,
        one,
        other,
    );
    merge_parents(&mut book.forward_parent, merge);
    merge_sizes(&mut book.forward_size, merge);
}
