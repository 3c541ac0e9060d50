// What the trees of a forest of links tell: a group is a tree, and its least hold the smallest label of a parent step in it,
// less 1. A pass from the last cell to the first stores at each cell's root, and another fetches it from there.
ghost use Rattle.std.specs.Prelude.{◌≡◌, length};
ghost use Rattle.forest.specs.Arrays.{places, roots_of};
ghost use Rattle.book_state.specs.Arrays.{step_limit};
ghost use Rattle.window_groups.specs.Trees.{Roots, lower, tallies_of, FromOne, groups_at};

use super::Groups;
use book_state::{CELLS, STEP_LIMIT};
use forest::PLACES;
use window_forest::LinkForest;

// The label of the cell's step, if that is smaller; a root has no step.
fn lower_label(cell: u16, parent: u16, label: u8, least: u8) -> u8
    ensures { result ≡ lower cell parent label least }
{
    if parent == cell {
        least
    } else {
        label.min(least)
    }
}

// Of each root's tree: its smallest cell, how many cells it has, and the smallest label of a parent step in it. Arrays as Groups has them.
#[derive(Clone, Copy)]
pub struct Tallies {
    pub first: [u16; PLACES],
    pub count: [u16; PLACES],
    pub least: [u8; PLACES],
}

// The root of each cell. This and the two passes below stay functions of their own for the sake of the stack: the arrays that one of them needs are
// not on it together with those of another, nor with those that the forest was grown in.
#[inline(never)]
pub fn roots(forest: &LinkForest) -> [u16; PLACES]
    ensures { result ≡ roots_of forest.now.parent step_limit places }
{
    forest_walk::roots(&forest.parent, STEP_LIMIT)
}

// The tallies, in one pass. The cell that is stored last for a tree is its smallest; `top` stands where there is no step.
#[inline(never)]
#[tactic(auto, using(crate::proofs::Tally::tree_short))]
pub fn tally(root: &[u16; PLACES], forest: &LinkForest, top: u8) -> Tallies
    requires { Roots root.now }
    ensures { result ≡ tallies_of root.now forest.now.parent forest.now.label top }
{
    let mut first = [0u16; PLACES];
    let mut count = [0u16; PLACES];
    let mut least = [top; PLACES];
    for cell in (0..CELLS).rev() {
        let at = cell as usize;
        let r = root[at] as usize;
        first[r] = cell;
        count[r] += 1;
        least[r] = lower_label(cell, forest.parent[at], forest.label[at], least[r]);
    }
    Tallies {
        first,
        count,
        least,
    }
}

// Of each cell, what stands at its root.
#[inline(never)]
pub fn at_roots(root: &[u16; PLACES], tallies: &Tallies, links: usize) -> Groups
    requires { Roots root.now × FromOne root.now tallies.now.least }
    ensures { result ≡ groups_at root.now tallies.now links }
{
    let mut first = [0u16; PLACES];
    let mut count = [0u16; PLACES];
    let mut hold = [0u8; PLACES];
    for cell in 0..PLACES {
        let r = root[cell] as usize;
        first[cell] = tallies.first[r];
        count[cell] = tallies.count[r];
        hold[cell] = tallies.least[r] - 1;
    }
    Groups {
        first,
        count,
        hold,
        links,
    }
}
