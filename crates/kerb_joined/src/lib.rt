// The interface for C and Rust: the joined call. What it gives is what its definition says, for every input.
#![tactic(auto)]

ghost use Rattle.std.specs.Prelude.{◌≡◌};
ghost use Rattle.book_joined.specs.Joined.{joined_of};

use book_joined::JoinedAnswer;
use book_state::Book;

// Whether the window's links join the two cells, and the steps of the walks.
#[unsafe(no_mangle)]
pub extern "C" fn kerb_joined(book: &Book, one: u16, other: u16) -> JoinedAnswer
    ensures { result ≡ joined_of book.now one other }
{
    JoinedAnswer::from(book_joined::ask(book, one, other))
}
