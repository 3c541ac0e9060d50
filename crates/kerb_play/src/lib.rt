// The interface for C and Rust: the call that plays a link file into a book. What it gives, the book and the log at the end are
// those of its definition, for every input.
#![tactic(auto)]

ghost use Rattle.file_play.specs.Play.{play_of, GivesPlay};

use book_state::Book;
use file_play::PlayAnswer;

// The records of a link file, one after the other, up to the first that is refused; those before it stay (RULES 6.6 to 6.9). Each is stored in
// the slide of the total that its tick makes, which does not follow from the tick alone (RULES 2.4).
#[unsafe(no_mangle)]
pub extern "C" fn kerb_play(book: &mut Book, log: &mut [u16], file: &[u8]) -> PlayAnswer
    ensures { GivesPlay (play_of file.now book.old log.old) book.new result log.new }
{
    PlayAnswer::from(file_play::play_file(book, log, file))
}
