// One link more in a labelled forest whose parents are never shortened, with scratch parents beside it that are: they find the roots of
// the two ends, and the forest takes the step that it would have taken.
#![tactic(auto)]

ghost use Rattle.std.specs.Prelude.{◌≡◌, ◌<◌, ℕ, List};
ghost use Rattle.forest_scratch.specs.Scratch.{join_of};
ghost use Rattle.book_state.specs.Arrays.{cells, arrays_of, fresh_arrays, united};
ghost use Rattle.book_state.specs.Log.{labelled};
ghost use Rattle.forest_beside.specs.Beside.{Beside, tops_of};

use forest::PLACES;
use forest_scratch::join;
use forest_unite::roots::merge_of_roots;
use forest_unite::{merge_labels, merge_parents, merge_sizes};

// Scratch parents beside a forest, and for each root of theirs the forest's root of the same cells.
#[derive(Clone, Copy)]
pub struct Scratch {
    pub parents: [u16; PLACES],
    pub tops: [u16; PLACES],
}

// One link more in the forest and in the scratch beside it. The forest's arrays are lent one by one: in the book each is a field of its own.
pub fn unite(
    parent: &mut [u16; PLACES],
    size: &mut [u16; PLACES],
    label: &mut [u8; PLACES],
    scratch: &mut Scratch,
    place: u8,
    one: u16,
    other: u16,
)
    requires beside { Beside (arrays_of parent.old size.old label.old) scratch.old }
    requires one_lt_cells { (one < cells) × (other < cells) }
    ensures label_after { arrays_of parent.new size.new label.new
        ≡ united (arrays_of parent.old size.old label.old) (labelled place (record { one = one; other = other })) }
    ensures beside_after { Beside (arrays_of parent.new size.new label.new) scratch.new }
    ensures scratch_after { scratch.new.parents ≡ join_of scratch.old.parents one other }
    ensures tops_after { scratch.new.tops ≡ tops_of (arrays_of parent.old size.old label.old) scratch.old one other }
{
    let r = join(&mut scratch.parents, one, other);
    // Most links of a full window find their ends joined already.
    if r.one == r.other {
        return;
    }
    let tops = &mut scratch.tops;
    if let Some(h) = merge_of_roots(size, tops[usize::from(r.one)], tops[usize::from(r.other)]) {
        merge_parents(parent, Some(h));
        merge_sizes(size, Some(h));
        merge_labels(label, Some(h), place);
        tops[usize::from(r.one.min(r.other))] = h.top;
    }
}
