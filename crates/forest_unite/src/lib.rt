// What a link does to a forest in arrays: roots.rt says which root goes under which, and each function here stores into one array. Parents
// are never shortened: a link stores one parent, that of a root.
#![tactic(auto)]

pub mod roots; // roots.rt: which root goes under which

ghost use Rattle.std.specs.Prelude.{◌≡◌, slice_set};
ghost use Rattle.forest_unite.specs.United.{merged_parents, merged_sizes, merged_labels, United};

use forest::PLACES;

// What a link does to a forest where its ends have different roots: the root `child` goes under the root `top`, whose tree then has
// `size` cells. Where they have one root already there is no merge.
#[derive(Clone, Copy)]
pub struct Merge {
    pub child: u16,
    pub top: u16,
    pub size: u16,
}

// The child's new parent, if there is a merge.
pub fn merge_parents(parent: &mut [u16; PLACES], merge: Option<Merge>)
    ensures { parent.new ≡ merged_parents parent.old merge }
{
    if let Some(h) = merge {
        store(parent, h.child, h.top);
    }
}

// The top's new size.
pub fn merge_sizes(size: &mut [u16; PLACES], merge: Option<Merge>)
    ensures { size.new ≡ merged_sizes size.old merge }
{
    if let Some(h) = merge {
        store(size, h.top, h.size);
    }
}

// The label of the child's step.
pub fn merge_labels(label: &mut [u8; PLACES], merge: Option<Merge>, place: u8)
    ensures { label.new ≡ merged_labels label.old merge place }
{
    if let Some(h) = merge {
        store(label, h.child, place);
    }
}

// One link more, whose step is labelled with the place. Each array is lent for itself: in a book each is a field of its own.
pub fn unite(
    parent: &mut [u16; PLACES],
    size: &mut [u16; PLACES],
    label: &mut [u8; PLACES],
    limit: u8,
    place: u8,
    one: u16,
    other: u16,
)
    ensures { United parent.old size.old label.old limit one other place
        parent.new size.new label.new }
{
    let merge = roots::merge_of(parent, size, limit, one, other);
    // Most links of a full window find their ends joined already.
    if merge.is_none() {
        return;
    }
    merge_parents(parent, merge);
    merge_sizes(size, merge);
    merge_labels(label, merge, place);
}

// The cell's entry stored; beyond the slice nothing is.
fn store<T: Copy>(entries: &mut [T], cell: u16, entry: T)
    ensures { entries.new ≡ slice_set entries.old cell entry }
{
    let at = usize::from(cell);
    if at < entries.len() {
        entries[at] = entry;
    }
}
