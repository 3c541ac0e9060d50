// The archive libkerb.a, for C and Rust: each export calls the function of the same name in the crates kerb, kerb_opening, kerb_time, kerb_play,
// kerb_joined, kerb_chain, kerb_groups, kerb_lamps, kerb_slides, kerb_file and kerb_text, and states its clauses again, word for word
// (tools/exports compares them). Those crates are libraries, and the crate pledges speaks of their functions; that each export meets what is
// pledged of its function is proved in proofs/Exports.
#![tactic(auto)]

ghost use Rattle.book.specs.Calls.{Gives, opening_of, link_of, clock_of};
ghost use Rattle.book_joined.specs.Joined.{joined_of};
ghost use Rattle.book_state.specs.Order.{never_opened_of};
ghost use Rattle.cells.specs.Cell.{sectors, ring_of, sector_of, lorry_cell_of, unit_cell_of};
ghost use Rattle.chain.specs.Chain.{chain_of, GivesChain};
ghost use Rattle.file.specs.Format.{read_of};
ghost use Rattle.file_play.specs.Play.{play_of, GivesPlay};
ghost use Rattle.file_record.specs.Record.{pack_number, packed_of, record_of};
ghost use Rattle.file_write.specs.Writer.{write_number, output_of};
ghost use Rattle.groups.specs.Call.{groups_given, GivesGroups};
ghost use Rattle.kerb.specs.Interface.{version, book_size};
ghost use Rattle.lamps.specs.Lamps.{lamps_of};
ghost use Rattle.listing.specs.Listing.{listing_of, GivesListing};
ghost use Rattle.slides.specs.Clock.{time_of, open_slide_of, ticks_of};
ghost use Rattle.std.specs.Prelude.{◌≡◌, length, replicate};
ghost use Rattle.text_list.specs.Call.{text_in_of, GivesTextIn, text_out_of, GivesTextOut};

use book_joined::JoinedAnswer;
use book_state::Book;
use chain::ChainAnswer;
use file::Reading;
use file_play::PlayAnswer;
use file_record::RecordAnswer;
use groups::GroupsAnswer;
use lamps::LampsAnswer;
use listing::ListAnswer;
use settings::Settings;
use slides::SlideTicks;
use text_list::{TextInAnswer, TextOutAnswer};

#[unsafe(no_mangle)]
pub extern "C" fn kerb_never_opened() -> Book
    ensures { result ≡ never_opened_of }
{
    kerb::kerb_never_opened()
}

#[unsafe(no_mangle)]
pub extern "C" fn kerb_pack(tick: u32, one: u16, other: u16, out: &mut [u8]) -> u8
    ensures number { result ≡ pack_number (length out.old) }
    ensures output { out.new ≡ packed_of tick one other out.old }
{
    kerb::kerb_pack(tick, one, other, out)
}

#[unsafe(no_mangle)]
pub extern "C" fn kerb_unpack(records: &[u8], i: u32) -> RecordAnswer
    ensures { result ≡ record_of records.now i }
{
    kerb::kerb_unpack(records, i)
}

#[unsafe(no_mangle)]
pub extern "C" fn kerb_lorry_cell(mounting: u8, cell: u16) -> u16
    ensures { result ≡ lorry_cell_of (record { mounting = mounting; pad = replicate 7 0 }) cell }
{
    kerb::kerb_lorry_cell(mounting, cell)
}

#[unsafe(no_mangle)]
pub extern "C" fn kerb_unit_cell(mounting: u8, cell: u16) -> u16
    ensures { result ≡ unit_cell_of (record { mounting = mounting; pad = replicate 7 0 }) cell }
{
    kerb::kerb_unit_cell(mounting, cell)
}

#[unsafe(no_mangle)]
pub extern "C" fn kerb_ring(cell: u16) -> u16
    ensures { result ≡ ring_of sectors cell }
{
    kerb::kerb_ring(cell)
}

#[unsafe(no_mangle)]
pub extern "C" fn kerb_sector(cell: u16) -> u16
    ensures { result ≡ sector_of sectors cell }
{
    kerb::kerb_sector(cell)
}

#[unsafe(no_mangle)]
pub extern "C" fn kerb_version_3() -> u32
    ensures { result ≡ version }
{
    kerb::kerb_version_3()
}

#[unsafe(no_mangle)]
pub extern "C" fn kerb_book_size() -> usize
    ensures { result ≡ book_size }
{
    kerb::kerb_book_size()
}

#[unsafe(no_mangle)]
pub extern "C" fn kerb_opening(book: &mut Book, log: &mut [u16], s: Settings) -> u8
    ensures { Gives (opening_of book.old log.old s) (record { book = book.new; number = result }) log.new }
{
    kerb_opening::kerb_opening(book, log, s)
}

#[unsafe(no_mangle)]
pub extern "C" fn kerb_link(book: &mut Book, log: &mut [u16], tick: u32, one: u16, other: u16) -> u8
    ensures { Gives (link_of book.old log.old tick one other) (record { book = book.new; number = result }) log.new }
{
    kerb_time::kerb_link(book, log, tick, one, other)
}

#[unsafe(no_mangle)]
pub extern "C" fn kerb_clock(book: &mut Book, log: &[u16], tick: u32) -> u8
    ensures { Gives (clock_of book.old log.now tick) (record { book = book.new; number = result }) log.now }
{
    kerb_time::kerb_clock(book, log, tick)
}

#[unsafe(no_mangle)]
pub extern "C" fn kerb_time(book: &Book) -> u32
    ensures { result ≡ time_of book.now.clock }
{
    kerb_time::kerb_time(book)
}

#[unsafe(no_mangle)]
pub extern "C" fn kerb_play(book: &mut Book, log: &mut [u16], file: &[u8]) -> PlayAnswer
    ensures { GivesPlay (play_of file.now book.old log.old) book.new result log.new }
{
    kerb_play::kerb_play(book, log, file)
}

#[unsafe(no_mangle)]
pub extern "C" fn kerb_joined(book: &Book, one: u16, other: u16) -> JoinedAnswer
    ensures { result ≡ joined_of book.now one other }
{
    kerb_joined::kerb_joined(book, one, other)
}

#[unsafe(no_mangle)]
pub extern "C" fn kerb_chain(
    book: &Book,
    log: &[u16],
    one: u16,
    other: u16,
    chain: &mut [u16],
) -> ChainAnswer
    ensures { GivesChain (chain_of book.now log.now chain.old one other) result chain.new }
{
    kerb_chain::kerb_chain(book, log, one, other, chain)
}

#[unsafe(no_mangle)]
pub extern "C" fn kerb_groups(
    book: &Book,
    log: &[u16],
    first: &mut [u16],
    size: &mut [u16],
    hold: &mut [u8],
) -> GroupsAnswer
    ensures { GivesGroups (groups_given book.now log.now first.old size.old hold.old)
        result first.new size.new hold.new }
{
    kerb_groups::kerb_groups(book, log, first, size, hold)
}

#[unsafe(no_mangle)]
pub extern "C" fn kerb_lamps(book: &Book, log: &[u16], mask: &[u8]) -> LampsAnswer
    ensures { result ≡ lamps_of book.now log.now mask.now }
{
    kerb_lamps::kerb_lamps(book, log, mask)
}

#[unsafe(no_mangle)]
pub extern "C" fn kerb_open_slide(book: &Book) -> u64
    ensures { result ≡ open_slide_of book.now.clock }
{
    kerb_slides::kerb_open_slide(book)
}

#[unsafe(no_mangle)]
pub extern "C" fn kerb_slide_ticks(book: &Book, slide: u64) -> SlideTicks
    ensures { result ≡ ticks_of book.now.clock slide }
{
    kerb_slides::kerb_slide_ticks(book, slide)
}

#[unsafe(no_mangle)]
pub extern "C" fn kerb_read(file: &[u8]) -> Reading
    ensures { result ≡ read_of file.now }
{
    kerb_file::kerb_read(file)
}

#[unsafe(no_mangle)]
pub extern "C" fn kerb_write(s: Settings, records: &[u8], out: &mut [u8]) -> u8
    ensures number { result ≡ write_number s (length records.now) (length out.old) }
    ensures output { out.new ≡ output_of s records.now out.old }
{
    kerb_file::kerb_write(s, records, out)
}

#[unsafe(no_mangle)]
pub extern "C" fn kerb_list(file: &[u8], out: &mut [u8]) -> ListAnswer
    ensures { GivesListing (listing_of file.now out.old) result out.new }
{
    kerb_file::kerb_list(file, out)
}

#[unsafe(no_mangle)]
pub extern "C" fn kerb_text_in(s: Settings, text: &[u8], out: &mut [u8]) -> TextInAnswer
    ensures { GivesTextIn (text_in_of s text.now out.old) result out.new }
{
    kerb_text::kerb_text_in(s, text, out)
}

#[unsafe(no_mangle)]
pub extern "C" fn kerb_text_out(file: &[u8], out: &mut [u8]) -> TextOutAnswer
    ensures { GivesTextOut (text_out_of file.now out.old) result out.new }
{
    kerb_text::kerb_text_out(file, out)
}
