// The calls that change the book of links and its log: opening, link and clock. Each refuses by the first check that fails, and
// then nothing changes; else its effects follow. What the three give is defined in specs/Calls.antt; the code of link, which is as
// much as that of the other two, is a crate of its own (book_link).
#![tactic(auto)]

ghost use Rattle.refusals.specs.Number.{number_of};
ghost use Rattle.book.specs.Calls.{Gives, opening_of, clock_of};

use book_state::{Book, LOG_PLACES, has_room, spots};
use refusals::Refusal;
use settings::Settings;

// A fresh history, whatever the book was.
#[tactic(auto, using(numbers::proofs::Checks::has_length), unfolding(crate::specs::Calls::opening_of, crate::specs::Calls::opening_by_number, crate::specs::Calls::opening_number_of, numbers::specs::Checks::first_of))]
pub fn opening(book: &mut Book, log: &mut [u16], s: Settings) -> Result<(), Refusal>
    ensures { Gives (opening_of book.old log.old s) (record { book = book.new; number = number_of result }) log.new }
{
    settings::judge(s)?;
    if !has_room(log) {
        return Err(Refusal::Short);
    }
    spots::clear(log, LOG_PLACES);
    book_time::freshen(book);
    book.counts = [0; 32];
    book.clock = slides::start(s);
    book.fitting = settings::fitting(s);
    Ok(())
}

// The time moves to the tick, and nothing is logged. Which slide is open then does not follow from the tick alone (RULES 2.4).
#[tactic(auto, using(book_state::proofs::Checks::readable), unfolding(crate::specs::Calls::clock_of, crate::specs::Calls::clock_by_number, crate::specs::Calls::clock_number_of, numbers::specs::Checks::first_of))]
pub fn clock(book: &mut Book, log: &[u16], tick: u32) -> Result<(), Refusal>
    ensures { Gives (clock_of book.old log.now tick) (record { book = book.new; number = number_of result }) log.now }
{
    if !book.in_order() {
        return Err(Refusal::OutOfOrder);
    }
    if !has_room(log) {
        return Err(Refusal::Short);
    }
    if !slides::not_before(book.clock, tick) {
        return Err(Refusal::Late);
    }
    book_time::move_to(book, log, tick);
    Ok(())
}
