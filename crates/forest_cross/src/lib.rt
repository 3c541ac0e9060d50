// Crossing (RULES 4): from a group of the backward forest to each forward group that shares a cell with it, and from
// there back again, until no new group is met. A cell's key is the root of its tree; the cells of one key are a group, and are
// listed behind their root.
#![tactic(auto)]

ghost use Rattle.std.specs.Prelude.{◌<◌};
ghost use Rattle.forest.specs.Arrays.{places, roots_of, roots_at_of};
ghost use Rattle.forest_cross.specs.Across.{JoinedAcross};
ghost use Rattle.forest_cross.specs.Groups.{WalksEnd, NoneListed, Grouped, Crossable};
ghost use Rattle.forest_cross.specs.Marks.{OneSide, MayEnter, Crossed};

use forest::{PLACES, fresh_parents};
use forest_walk::{root_inside, up_inside};

// Ends a list: the number of cells.
const END: u16 = 1024;

// One side of a crossing: of each cell the root of its tree, which is the key of its group, and the next cell of its group. It is passed by
// value, as two addresses: behind a reference each cell of a crossing would look them up first.
#[derive(Clone, Copy)]
struct Side<'a> {
    roots: &'a [u16; PLACES],
    next: &'a [u16; PLACES],
    ghost grouped: { OneSide roots.now next.now },
}

// Finds each cell's root and lists it behind that, in one pass from the last cell to the first. A cell that takes no step is a root
// already: most cells are, and a pass over all of them is what a crossing costs.
fn list_groups(
    parent: &[u16],
    label: &[u8],
    limit: u8,
    cut: u8,
    roots: &mut [u16; PLACES],
    next: &mut [u16; PLACES],
)
    requires walks { WalksEnd parent.now label.now limit cut }
    requires none { NoneListed roots.old next.old }
    ensures { Grouped (roots_at_of parent.now label.now limit cut places) roots.new next.new }
{
    for cell in (0..PLACES).rev() {
        let here = cell as u16;
        if up_inside(parent, label, cut, here) == here {
            continue;
        }
        let root = root_inside(parent, label, limit, cut, here);
        let top = usize::from(root);
        roots[cell] = root;
        next[cell] = next[top];
        next[top] = here;
    }
}

// Marks a backward group, then crosses to the forward group of each of its cells that has no mark yet.
#[cycle(from_backward_from_forward)]
fn from_backward(
    group: usize,
    backward: Side,
    forward: Side,
    backward_marks: &mut [u8; PLACES],
    forward_marks: &mut [u8; PLACES],
)
    requires { MayEnter backward.roots.now backward_marks.old group }
    ensures { Crossed backward.entry.roots.now forward.entry.roots.now group backward_marks.old
        forward_marks.old backward_marks.new forward_marks.new }
{
    backward_marks[group] = 1;
    let mut cell = group;
    while cell < PLACES {
        let shared = usize::from(forward.roots[cell]);
        if forward_marks[shared] == 0 {
            from_forward(shared, forward, backward, forward_marks, backward_marks);
        }
        cell = usize::from(backward.next[cell]);
    }
}

// And back again: the same with the sides exchanged. Two functions that call each other, as the request words it (docs/DECISIONS.md, the forms
// that it names).
#[cycle(from_backward_from_forward)]
fn from_forward(
    group: usize,
    forward: Side,
    backward: Side,
    forward_marks: &mut [u8; PLACES],
    backward_marks: &mut [u8; PLACES],
)
    requires { MayEnter forward.roots.now forward_marks.old group }
    ensures { Crossed forward.entry.roots.now backward.entry.roots.now group forward_marks.old
        backward_marks.old forward_marks.new backward_marks.new }
{
    forward_marks[group] = 1;
    let mut cell = group;
    while cell < PLACES {
        let shared = usize::from(backward.roots[cell]);
        if backward_marks[shared] == 0 {
            from_backward(shared, backward, forward, backward_marks, forward_marks);
        }
        cell = usize::from(forward.next[cell]);
    }
}

// Whether one cell's group leads across to the other cell's, once the cells of both sides are listed. Each group is entered once and each
// list walked once, so the time is linear in the cells.
fn crosses(backward: Side, forward: Side, one: u16, other: u16) -> bool
    requires one { one < places }
    requires other { other < places }
    ensures { JoinedAcross backward.entry.roots.now forward.entry.roots.now one other result }
{
    let start = usize::from(backward.roots[usize::from(one)]);
    let asked = usize::from(backward.roots[usize::from(other)]);
    let mut backward_marks = [0; PLACES];
    let mut forward_marks = [0; PLACES];
    from_backward(
        start,
        backward,
        forward,
        &mut backward_marks,
        &mut forward_marks,
    );
    backward_marks[asked] != 0
}

// Whether one cell leads across to the other by the groups of two forests: by the parents and labels of the backward one at the cut,
// and the parents of the forward one.
pub fn joined_across<'a>(
    backward: &'a [u16],
    label: &'a [u8],
    forward: &'a [u16],
    limit: u8,
    cut: u8,
    one: u16,
    other: u16,
) -> bool
    requires { Crossable backward.now label.now forward.now limit cut one other }
    ensures { JoinedAcross (roots_at_of backward.now label.now limit cut places)
        (roots_of forward.now limit places) one other result }
{
    let mut backward_roots = fresh_parents();
    let mut backward_next = [END; PLACES];
    list_groups(
        backward,
        label,
        limit,
        cut,
        &mut backward_roots,
        &mut backward_next,
    );
    let mut forward_roots = fresh_parents();
    let mut forward_next = [END; PLACES];
    // At cut 0 every step is taken, whatever its label.
    list_groups(
        forward,
        label,
        limit,
        0,
        &mut forward_roots,
        &mut forward_next,
    );
    let backward = Side {
        roots: &backward_roots,
        next: &backward_next,
    };
    let forward = Side {
        roots: &forward_roots,
        next: &forward_next,
    };
    crosses(backward, forward, one, other)
}
