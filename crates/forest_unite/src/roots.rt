// The roots of a link's ends: which goes under which, and the size of the tree then. Nothing is stored here.
ghost use Rattle.std.specs.Prelude.{◌≡◌};
ghost use Rattle.graph.specs.Forest.{goes_under_of};
ghost use Rattle.forest.specs.Arrays.{size_in};
ghost use Rattle.forest_unite.specs.United.{under, merge_of_roots_of, merge_of_lem};

use super::Merge;
use forest_walk::root;

// What a link of the two cells does to the forest.
pub fn merge_of(parent: &[u16], size: &[u16], limit: u8, one: u16, other: u16) -> Option<Merge>
    ensures { result ≡ merge_of_lem parent.now size.now limit one other }
{
    let a = root(parent, limit, one);
    let b = root(parent, limit, other);
    merge_of_roots(size, a, b)
}

// Of two roots, which goes under which.
pub fn merge_of_roots(size: &[u16], a: u16, b: u16) -> Option<Merge>
    ensures { result ≡ merge_of_roots_of size.now a b }
{
    if a == b {
        None
    } else if goes_under(size, a, b) {
        Some(merge_under(size, a, b))
    } else {
        Some(merge_under(size, b, a))
    }
}

// Whether a becomes the child: its tree is smaller, or as large and its number larger.
fn goes_under(size: &[u16], a: u16, b: u16) -> bool
    ensures { result ≡ goes_under_of (size_in size.now) a b }
{
    let size_a = size_of(size, a);
    let size_b = size_of(size, b);
    size_a < size_b || (size_a == size_b && b < a)
}

// The child under the top, with the size of both trees.
fn merge_under(size: &[u16], child: u16, top: u16) -> Merge
    ensures { result ≡ under size.now child top }
{
    Merge {
        child,
        top,
        size: size_of(size, top).wrapping_add(size_of(size, child)),
    }
}

// The cell's size; beyond the slice it is 1.
fn size_of(size: &[u16], cell: u16) -> u16
    ensures { result ≡ size_in size.now cell }
{
    size.get(usize::from(cell)).copied().unwrap_or(1)
}
