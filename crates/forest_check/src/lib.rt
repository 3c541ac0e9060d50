// Number 1 (RULES 7.8), for one forest in arrays: these are within their ranges, and no walk exceeds its steps.
//
// It is asked at every call, so it is quick where the forest is one that links made: there each step of a walk at least
// doubles a size that stays within the number of cells. Only where some size does not do that are the walks taken.
// A pass keeps a flag, or the least and the greatest so far, in the width of the entries, and goes on, with no way out: so a
// machine can do several entries at a time.
#![tactic(auto)]

ghost use Rattle.std.specs.Prelude.{◌≡◌, cond, ◌&&◌, ◌-◌, ◌*◌, ◌^◌, ◌≤◌, ◌<◌, eqb, leb, length};
ghost use Rattle.forest.specs.Arrays.{places, parent_in};
ghost use Rattle.forest_check.specs.Sound.{every, within, ends, ends_from_of, Comparable, Above, doubles_at, sound_of, labels_within_of};

use forest::PLACES;
use forest_walk::root;

// Whether the arrays are a forest's, with no walk over `limit` steps. Each is lent for itself: in a book each is a field of its own.
pub fn sound(parent: &[u16], size: &[u16], limit: u8) -> bool
    ensures { result ≡ sound_of parent.now size.now limit }
{
    let cells = parent.len();
    size.len() == cells
        && all_within(parent, 0, cells)
        && all_within(size, 1, cells + 1)
        && ((reaches(limit, cells) && doubles(parent, size)) || walks_end(parent, limit))
}

// Whether each label is at most the bound.
pub fn labels_within(label: &[u8], bound: u8) -> bool
    ensures { result ≡ labels_within_of label.now bound }
{
    let mut fine = true;
    for x in label {
        fine &= *x <= bound;
    }
    fine
}

// Whether each number is at least low and below the end: the least and the greatest are.
pub fn all_within(numbers: &[u16], low: usize, end: usize) -> bool
    ensures { result ≡ every (within low end) 0 numbers.now }
{
    let Some(first) = numbers.first() else {
        return true;
    };
    let mut least = *first;
    let mut greatest = *first;
    for x in numbers {
        least = least.min(*x);
        greatest = greatest.max(*x);
    }
    low <= usize::from(least) && usize::from(greatest) < end
}

// Whether sizes can tell: a walk of `limit` steps, each of which doubles a size, reaches the size `cells`, and there are no more
// than are gathered below.
fn reaches(limit: u8, cells: usize) -> bool
    ensures { result ≡ (leb cells places && leb cells (2 ^ limit)) }
{
    cells <= PLACES && (limit >= 64 || cells <= 1 << limit)
}

// Whether each cell's size but a root's is at most half its parent's: none lacks anything.
fn doubles(parent: &[u16], size: &[u16]) -> bool
    requires { Comparable parent.now size.now }
    ensures { result ≡ every (doubles_at size.now) 0 parent.now }
{
    let above = sizes_above(parent, size);
    let mut lacking = 0;
    for i in 0..parent.len() {
        lacking = lacking.max(lack(i as u16, parent[i], size[i], above[i]));
    }
    lacking == 0
}

// The size of each cell's parent. They are gathered first, one by one, so that the comparison has no place to look up.
fn sizes_above(parent: &[u16], size: &[u16]) -> [u16; PLACES]
    requires { Comparable parent.now size.now }
    ensures { Above parent.now size.now result }
{
    let mut above = [0; PLACES];
    for (i, up) in parent.iter().enumerate() {
        above[i] = size[usize::from(*up)];
    }
    above
}

// What the size above a cell lacks of twice its own; a root lacks nothing. The difference is taken of a root too, so that the pass has no branch.
fn lack(cell: u16, up: u16, own: u16, above: u16) -> u16
    requires { own ≤ places }
    ensures { result ≡ cond (eqb up cell) 0 (2 * own - above) }
{
    let short = (2 * own).saturating_sub(above);
    if up == cell { 0 } else { short }
}

// Whether every cell's walk ends.
fn walks_end(parent: &[u16], limit: u8) -> bool
    ensures { result ≡ every (ends_from_of parent.now limit) 0 parent.now }
{
    (0..parent.len()).all(|cell| ends_from(parent, limit, cell))
}

// Whether the cell's walk ends: at a root it does, and elsewhere where the walk from its parent does, with a step less.
fn ends_from(parent: &[u16], limit: u8, cell: usize) -> bool
    requires { cell < length parent.now }
    ensures { result ≡ ends (parent_in parent.now) limit cell }
{
    let above = parent[cell];
    usize::from(above) == cell || (limit != 0 && stays(parent, root(parent, limit - 1, above)))
}

// Whether the cell is a root: a walk that has come to one has ended.
fn stays(parent: &[u16], cell: u16) -> bool
    ensures { result ≡ eqb (parent_in parent.now cell) cell }
{
    root(parent, 1, cell) == cell
}
