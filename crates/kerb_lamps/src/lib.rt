// The interface for C and Rust: the two lamps. What it gives is what its definition says, for every input.
#![tactic(auto)]

ghost use Rattle.std.specs.Prelude.{◌≡◌};
ghost use Rattle.lamps.specs.Lamps.{lamps_of};

use book_state::Book;
use lamps::LampsAnswer;

// Whether each lamp is lit, and the smallest cell that lights it, by a body mask in the lorry's numbers (RULES 11).
#[unsafe(no_mangle)]
pub extern "C" fn kerb_lamps(book: &Book, log: &[u16], mask: &[u8]) -> LampsAnswer
    ensures { result ≡ lamps_of book.now log.now mask.now }
{
    LampsAnswer::from(lamps::ask(book, log, mask))
}
