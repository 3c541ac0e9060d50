// The interface for C and Rust: each call of the library under a plain name, over `#[repr(C)]` structs, a slice as a pointer and
// then a length. Every call promises what its definition says, for every input. Here are the small ones that every caller needs: cell
// numbers, one record's bytes, and what a caller's header must agree with. The calls over a book have crates of their own: opening
// and play, link and clock (`kerb_time`), joined, chain, groups, lamps, slides; those over whole link files are in `kerb_file`, over texts in `kerb_text`. The archive
// libkerb.a (`kerb_c`) exports them all.
#![tactic(auto)]

ghost use Rattle.std.specs.Prelude.{◌≡◌, length, replicate};
ghost use Rattle.cells.specs.Cell.{sectors, ring_of, sector_of, lorry_cell_of, unit_cell_of};
ghost use Rattle.book_state.specs.Order.{never_opened_of};
ghost use Rattle.file_record.specs.Record.{pack_number, packed_of, record_of};
ghost use Rattle.kerb.specs.Interface.{version, book_size};

use book_state::Book;
use cells::Fitting;
use file_record::{Record, RecordAnswer};

// A book that was never opened: no call over a book does more with it than to say so (RULES 7.8).
#[unsafe(no_mangle)]
pub extern "C" fn kerb_never_opened() -> Book
    ensures { result ≡ never_opened_of }
{
    book_state::never_opened()
}

// The 8 bytes of a record at the front of the output (RULES 6.2).
#[unsafe(no_mangle)]
pub extern "C" fn kerb_pack(tick: u32, one: u16, other: u16, out: &mut [u8]) -> u8
    ensures number { result ≡ pack_number (length out.old) }
    ensures output { out.new ≡ packed_of tick one other out.old }
{
    refusals::number(file_record::pack(Record { tick, one, other }, out))
}

// Record i of these bytes (RULES 6.2).
#[unsafe(no_mangle)]
pub extern "C" fn kerb_unpack(records: &[u8], i: u32) -> RecordAnswer
    ensures { result ≡ record_of records.now i }
{
    RecordAnswer::from(file_record::unpack(records, i))
}

// The lorry's number of a unit's cell, by the mounting, and the way back (RULES 1.3 to 1.7).
#[unsafe(no_mangle)]
pub extern "C" fn kerb_lorry_cell(mounting: u8, cell: u16) -> u16
    ensures { result ≡ lorry_cell_of (record { mounting = mounting; pad = replicate 7 0 }) cell }
{
    let fitting = Fitting {
        mounting,
        pad: [0; 7],
    };
    cells::lorry_cell(fitting, cell)
}

#[unsafe(no_mangle)]
pub extern "C" fn kerb_unit_cell(mounting: u8, cell: u16) -> u16
    ensures { result ≡ unit_cell_of (record { mounting = mounting; pad = replicate 7 0 }) cell }
{
    let fitting = Fitting {
        mounting,
        pad: [0; 7],
    };
    cells::unit_cell(fitting, cell)
}

// The ring of a cell, and its sector (RULES 1.2).
#[unsafe(no_mangle)]
pub extern "C" fn kerb_ring(cell: u16) -> u16
    ensures { result ≡ ring_of sectors cell }
{
    cells::ring(cell)
}

#[unsafe(no_mangle)]
pub extern "C" fn kerb_sector(cell: u16) -> u16
    ensures { result ≡ sector_of sectors cell }
{
    cells::sector(cell)
}

// The version of the interface, and the bytes of a book: a caller compares both with its header's before it opens a book.
#[unsafe(no_mangle)]
pub extern "C" fn kerb_version_3() -> u32
    ensures { result ≡ version }
{
    3
}

#[unsafe(no_mangle)]
pub extern "C" fn kerb_book_size() -> usize
    ensures { result ≡ book_size }
{
    9312
}
