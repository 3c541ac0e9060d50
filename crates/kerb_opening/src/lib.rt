// The interface for C and Rust: the call that opens a book. What it gives, the book and the log at the end are those of its
// definition, for every input.
#![tactic(auto)]

ghost use Rattle.book.specs.Calls.{Gives, opening_of};

use book_state::Book;
use settings::Settings;

// A fresh history, whatever the book was.
#[unsafe(no_mangle)]
pub extern "C" fn kerb_opening(book: &mut Book, log: &mut [u16], s: Settings) -> u8
    ensures { Gives (opening_of book.old log.old s) (record { book = book.new; number = result }) log.new }
{
    refusals::number(book::opening(book, log, s))
}
