// The interface for C and Rust: the time of a book, which link and clock move and a call of its own tells. What each gives, the book and
// the log at the end are those of its definition, for every input.
#![tactic(auto)]

ghost use Rattle.std.specs.Prelude.{◌≡◌};
ghost use Rattle.slides.specs.Clock.{time_of};
ghost use Rattle.book.specs.Calls.{Gives, link_of, clock_of};

use book_state::Book;

// A link of two cells of the unit, stored in the slide of the total that its tick makes: which slide that is does not follow from the tick
// alone (RULES 2.4).
#[unsafe(no_mangle)]
pub extern "C" fn kerb_link(book: &mut Book, log: &mut [u16], tick: u32, one: u16, other: u16) -> u8
    ensures { Gives (link_of book.old log.old tick one other) (record { book = book.new; number = result }) log.new }
{
    refusals::number(book_link::link(book, log, tick, one, other))
}

// The time moves to the tick, and nothing is logged. Which slide is open then does not follow from the tick alone (RULES 2.4).
#[unsafe(no_mangle)]
pub extern "C" fn kerb_clock(book: &mut Book, log: &[u16], tick: u32) -> u8
    ensures { Gives (clock_of book.old log.now tick) (record { book = book.new; number = result }) log.now }
{
    refusals::number(book::clock(book, log, tick))
}

// The time, the latest tick that the book has taken; 0 for a book that was never opened (RULES 2.3).
#[unsafe(no_mangle)]
pub extern "C" fn kerb_time(book: &Book) -> u32
    ensures { result ≡ time_of book.now.clock }
{
    slides::time(book.clock)
}
