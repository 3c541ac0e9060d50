// The step of time: within a chunk nothing else changes; into the next chunk the backward forest is built from the chunk
// that ends; further, nothing is left.
#![tactic(auto)]

ghost use Rattle.std.specs.Prelude.{◌≡◌, map, [], ◌+◌, ◌-◌, ◌*◌, ◌≤◌, ◌<◌, length};
ghost use Rattle.book_state.specs.Arrays.{arrays_of, fresh_arrays, united_all};
ghost use Rattle.book_state.specs.Log.{Readable, keep, labelled, links_at, chunk_links};
ghost use Rattle.forest_beside.specs.Beside.{Beside};
ghost use Rattle.book_time.specs.Time.{cleared, freshened, moved_book};

use book_state::{Book, are_cells, spots};
use forest::PLACES;
use forest_beside::Scratch;

// Makes both forests fresh: each cell is its own root again. To copy arrays takes less time than to make them. This and `unite_chunk` stay
// functions of their own for the sake of the stack: the arrays of the one are not on it together with those of the other.
#[inline(never)]
pub fn freshen(book: &mut Book)
    ensures { book.new ≡ freshened book.old }
{
    book.forward_parent = forest::fresh_parents();
    book.forward_size = forest::fresh_sizes();
    book.backward_parent = book.forward_parent;
    book.backward_size = book.forward_size;
    book.backward_label = forest::fresh_labels();
}

// Moves the time of the book to the tick. Time moves nowhere else.
#[tactic(auto, using(slides::proofs::Slides::chunk_later, slides::proofs::Slides::moved_n), unfolding(crate::specs::Time::moved_book, crate::specs::Time::moved_by_chunk, crate::specs::Time::stayed, crate::specs::Time::turned, crate::specs::Time::emptied, crate::specs::Time::backward_of))]
pub fn move_to(book: &mut Book, log: &[u16], tick: u32)
    requires { Readable book.old.clock.n book.old.counts log.now }
    ensures { book.new ≡ moved_book book.old log.now tick }
{
    let before = slides::chunk(book.clock, slides::open_slide(book.clock));
    let after = slides::chunk(book.clock, slides::slide(book.clock, tick));
    slides_step::advance(&mut book.clock, tick);
    if after == before {
        return;
    }
    freshen(book);
    // Time never moves back, and the number of the next chunk need not fit where a book is altered.
    if after - before != 1 {
        book.counts = [0; 32];
        return;
    }
    let half = (before % 2) as usize;
    unite_chunk(
        &book.counts,
        log,
        half,
        book.clock.n,
        &mut book.backward_parent,
        &mut book.backward_size,
        &mut book.backward_label,
    );
    clear_half(&mut book.counts, 1 - half);
}

// One half of the counts set to 0.
#[tactic(auto, unfolding(crate::specs::Time::cleared))]
fn clear_half(counts: &mut [u16; 32], half: usize)
    requires { half < 2 }
    ensures { counts.new ≡ cleared half counts.old }
{
    let from = half * 16;
    spots::clear(&mut counts[from..], 16);
}

// Unites the links of places n - 1 down to 1 into a fresh forest, each with its place as label; place 0 is never scanned (RULES 3.8).
// The forest's arrays are lent one by one, since C sees each as a field of the book.
#[inline(never)]
fn unite_chunk(
    counts: &[u16; 32],
    log: &[u16],
    half: usize,
    n: u8,
    parent: &mut [u16; PLACES],
    size: &mut [u16; PLACES],
    label: &mut [u8; PLACES],
)
    requires half_bound { half < 2 }
    requires fresh { arrays_of parent.old size.old label.old ≡ fresh_arrays }
    requires readable { Readable n counts.now log.now }
    ensures { arrays_of parent.new size.new label.new ≡ united_all (arrays_of parent.old size.old label.old) (chunk_links counts.now log.now half 1 (n - 1)) }
{
    // Fresh parents both. Made here, since a struct that a call gives is copied once more.
    let mut scratch = Scratch {
        parents: *parent,
        tops: *parent,
    };
    for place in (1..n).rev() {
        let spot = half * 16 + place as usize;
        unite_place(
            log,
            spot * 512,
            counts[spot] as usize,
            place,
            parent,
            size,
            label,
            &mut scratch,
        );
    }
}

// Unites the links of a place, last arrival first: `count` pairs of the log, starting at log place `start`.
fn unite_place(
    log: &[u16],
    start: usize,
    count: usize,
    place: u8,
    parent: &mut [u16; PLACES],
    size: &mut [u16; PLACES],
    label: &mut [u8; PLACES],
    scratch: &mut Scratch,
)
    requires count_in_bounds { start + 2 * count ≤ length log.now }
    requires beside { Beside (arrays_of parent.old size.old label.old) scratch.old }
    ensures label_after { arrays_of parent.new size.new label.new ≡ united_all (arrays_of parent.old size.old label.old) (map (labelled place) (links_at log.now start count)) }
    ensures beside_after { Beside (arrays_of parent.new size.new label.new) scratch.new }
{
    for i in (0..count).rev() {
        let at = start + 2 * i;
        unite_pair(log[at], log[at + 1], place, parent, size, label, scratch);
    }
}

// Unites one pair of the log. A pair with an entry that is no cell is no link.
#[tactic(auto, using(book_state::proofs::Checks::two_cells), unfolding(book_state::specs::Arrays::united_all))]
fn unite_pair(
    one: u16,
    other: u16,
    place: u8,
    parent: &mut [u16; PLACES],
    size: &mut [u16; PLACES],
    label: &mut [u8; PLACES],
    scratch: &mut Scratch,
)
    requires { Beside (arrays_of parent.old size.old label.old) scratch.old }
    ensures label_after { arrays_of parent.new size.new label.new ≡ united_all (arrays_of parent.old size.old label.old) (map (labelled place) (keep (record { one = one; other = other }) [])) }
    ensures beside_after { Beside (arrays_of parent.new size.new label.new) scratch.new }
{
    if !are_cells(one, other) {
        return;
    }
    forest_beside::unite(parent, size, label, scratch, place, one, other);
}
