// The interface for C and Rust: the slides of a book's clock. Each call takes one shared reference to the book and reads its clock;
// what it gives is what its definition says, for every input.
#![tactic(auto)]

ghost use Rattle.std.specs.Prelude.{◌≡◌};
ghost use Rattle.slides.specs.Clock.{open_slide_of, ticks_of};

use book_state::Book;
use slides::SlideTicks;

// The open slide, that of the total; 0 for a book that was never opened (RULES 2.15).
#[unsafe(no_mangle)]
pub extern "C" fn kerb_open_slide(book: &Book) -> u64
    ensures { result ≡ open_slide_of book.now.clock }
{
    slides::open_slide(book.clock)
}

// The totals and the ticks of a slide, from the first to the last, and whether any total reaches it.
#[unsafe(no_mangle)]
pub extern "C" fn kerb_slide_ticks(book: &Book, slide: u64) -> SlideTicks
    ensures { result ≡ ticks_of book.now.clock slide }
{
    slides::ticks(book.clock, slide)
}
