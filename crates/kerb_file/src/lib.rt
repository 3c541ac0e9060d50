// The interface for C and Rust, continued: the calls over whole link files. What each gives, and what the output holds at the end, is
// what its definition says, for every input.
#![tactic(auto)]

ghost use Rattle.std.specs.Prelude.{◌≡◌, length};
ghost use Rattle.file.specs.Format.{read_of};
ghost use Rattle.file_write.specs.Writer.{write_number, output_of};
ghost use Rattle.listing.specs.Listing.{listing_of, GivesListing};

use file::Reading;
use listing::ListAnswer;
use settings::Settings;

// The settings of a link file, and how many records it has.
#[unsafe(no_mangle)]
pub extern "C" fn kerb_read(file: &[u8]) -> Reading
    ensures { result ≡ read_of file.now }
{
    Reading::from(file::read(file))
}

// A link file of these settings and record bytes, at the front of the output.
#[unsafe(no_mangle)]
pub extern "C" fn kerb_write(s: Settings, records: &[u8], out: &mut [u8]) -> u8
    ensures number { result ≡ write_number s (length records.now) (length out.old) }
    ensures output { out.new ≡ output_of s records.now out.old }
{
    refusals::number(file_write::write(s, records, out))
}

// What kerblist prints for a link file, at the front of the output. The open slide in it is that of the total of all records, and does not
// follow from the last tick alone (RULES 2.4).
#[unsafe(no_mangle)]
pub extern "C" fn kerb_list(file: &[u8], out: &mut [u8]) -> ListAnswer
    ensures { GivesListing (listing_of file.now out.old) result out.new }
{
    ListAnswer::from(listing::list(file, out))
}
