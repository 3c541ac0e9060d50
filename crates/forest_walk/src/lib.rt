// Walks in a forest of RULES 3: from a cell to its root along the parents, in at most `limit` steps, without a cut and at a cut.
// Those that end in `_inside` are told that parents are cells, and ask nothing at a step; the others are total. Parents and labels are
// lent apart: in a book each is a field of its own, and without a cut no label is needed.
#![tactic(auto)]

ghost use Rattle.std.specs.Prelude.{◌≡◌, ◌<◌, length, ℕ};
ghost use Rattle.graph.specs.Forest.{climb};
ghost use Rattle.forest.specs.Arrays.{places, parent_in, label_in, parent_at_in, walked, walk_of, walk_at_of_lem, roots_of, ParentsAreCells};

use forest::{PLACES, Walk};

// The cell's parent; a cell beyond the slice stands still.
fn up(parent: &[u16], cell: u16) -> u16
    ensures { result ≡ parent_in parent.now cell }
{
    parent.get(usize::from(cell)).copied().unwrap_or(cell)
}

// The label of the cell's step to its parent.
fn label_of(label: &[u8], cell: u16) -> u8
    ensures { result ≡ label_in label.now cell }
{
    label.get(usize::from(cell)).copied().unwrap_or(0)
}

// The parent at a cut: a step whose label is below the cut is not taken.
fn up_at(parent: &[u16], label: &[u8], cut: u8, cell: u16) -> u16
    ensures { result ≡ parent_at_in parent.now label.now cut cell }
{
    if label_of(label, cell) < cut {
        cell
    } else {
        up(parent, cell)
    }
}

// The walk of a cell whose steps the closure takes: until a cell that stays, or for `limit` steps.
fn walk_by<F: Fn(u16) -> u16>(up: F, limit: u8, cell: u16) -> Walk
    requires first { F.pre up cell }
    requires further { (c d : ℕ) → F.pre up c → F.post up c d → F.pre up d }
    ensures { (step : ℕ → ℕ) → ((c d : ℕ) → F.pre up c → F.post up c d → d ≡ step c) → result ≡ walked (climb step limit cell) }
{
    let mut at = cell;
    for steps in 0..limit {
        let above = up(at);
        if above == at {
            return Walk { root: at, steps };
        }
        at = above;
    }
    Walk {
        root: at,
        steps: limit,
    }
}

// A walk at a cut.
pub fn walk_at(parent: &[u16], label: &[u8], limit: u8, cut: u8, cell: u16) -> Walk
    ensures { result ≡ walk_at_of_lem parent.now label.now limit cut cell }
{
    walk_by(|at| up_at(parent, label, cut, at), limit, cell)
}

// A walk without a cut.
pub fn walk(parent: &[u16], limit: u8, cell: u16) -> Walk
    ensures { result ≡ walk_of parent.now limit cell }
{
    walk_by(|at| up(parent, at), limit, cell)
}

// The root alone, without a cut: the steps are not asked for, and the compiler counts none.
pub fn root(parent: &[u16], limit: u8, cell: u16) -> u16
    ensures { result ≡ (walk_of parent.now limit cell).root }
{
    walk_by(|here| up(parent, here), limit, cell).root
}

// The root of each cell.
pub fn roots(parent: &[u16], limit: u8) -> [u16; PLACES]
    ensures { result ≡ roots_of parent.now limit places }
{
    let mut found = [0; PLACES];
    for cell in 0..PLACES {
        found[cell] = root(parent, limit, cell as u16);
    }
    found
}

// The parent at a cut of a cell within the slices. The label is asked last: most cells are roots, and their labels say nothing.
pub fn up_inside(parent: &[u16], label: &[u8], cut: u8, cell: u16) -> u16
    requires { (cell < length parent.now) × (cell < length label.now) }
    ensures { result ≡ parent_at_in parent.now label.now cut cell }
{
    let at = usize::from(cell);
    let above = parent[at];
    if above != cell && label[at] < cut {
        cell
    } else {
        above
    }
}

// The root at a cut where each parent is known to be a cell: no step asks whether it is within the slices.
pub fn root_inside(parent: &[u16], label: &[u8], limit: u8, cut: u8, cell: u16) -> u16
    requires { ParentsAreCells parent.now label.now × (cell < length parent.now) }
    ensures { result ≡ (walk_at_of_lem parent.now label.now limit cut cell).root }
{
    let up = |here: u16| -> u16
        requires { (here < length parent.now) × (here < length label.now) }
    { up_inside(parent, label, cut, here) };
    walk_by(up, limit, cell).root
}
