// Parents that may be shortened: which cells links chain together, and nothing else. No cell's parent is above it, so every way up ends;
// a find halves the way that it goes, and of two roots the larger goes under the smaller.
#![tactic(auto)]

ghost use Rattle.std.specs.Prelude.{◌≡◌, ◌<◌};
ghost use Rattle.graph.specs.Forest.{put};
ghost use Rattle.forest.specs.Arrays.{places};
ghost use Rattle.forest_scratch.specs.Scratch.{Descends, find_of, roots_of, join_of};

use forest::PLACES;

// The roots of two cells.
#[derive(Clone, Copy)]
pub struct Roots {
    pub one: u16,
    pub other: u16,
}

// Joins the trees of two cells. Returns their roots as they were before that.
pub fn join(parent: &mut [u16; PLACES], one: u16, other: u16) -> Roots
    requires descends { Descends parent.old }
    requires one_lt_places { (one < places) × (other < places) }
    ensures value { result ≡ roots_of parent.old one other }
    ensures parent_after { parent.new ≡ join_of parent.old one other }
{
    let u = find(parent, one);
    let v = find(parent, other);
    // Most links of a full window find their ends joined already: nothing is stored then. Of two roots the smaller becomes the parent.
    if u != v {
        parent[usize::from(u.max(v))] = u.min(v);
    }
    Roots { one: u, other: v }
}

// The root of a cell whose root was this one, after the child was put under the top.
pub fn moved(root: u16, child: u16, top: u16) -> u16
    ensures { result ≡ put child top (λ c. c) root }
{
    if root == child { top } else { root }
}

// The root of the cell. The way to it is halved: each cell on it that is passed takes its parent's parent for its own.
fn find(parent: &mut [u16; PLACES], cell: u16) -> u16
    requires descends { Descends parent.old }
    requires cell_lt_places { cell < places }
    ensures value { result ≡ (find_of parent.old cell).root }
    ensures parent_after { parent.new ≡ (find_of parent.old cell).parents }
{
    let mut at = usize::from(cell);
    loop {
        let above = parent[at];
        let next = parent[usize::from(above)];
        if next == above {
            return above;
        }
        parent[at] = next;
        at = usize::from(next);
    }
}
