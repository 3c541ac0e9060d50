// The ends of the window's links, and which cells those links chain together, in one pass over the window. The links are joined in
// scratch parents as they stand in the log, and each marks its two ends; of two roots the smaller stays on top, so that in the end the root
// of a cell is the smallest cell of its group.
#![tactic(auto)]

ghost use Rattle.std.specs.Prelude.{◌≡◌, []};
ghost use Rattle.book_state.specs.Log.{keep};
ghost use Rattle.forest_scratch.specs.Scratch.{Descends};
ghost use Rattle.window_ends.specs.Ends.{ends_of_lem};
ghost use Rattle.window_ends.specs.Joins.{Joins, ToRoots};

use book_state::are_cells;
use forest::PLACES;
use forest_scratch::join;
use window::Window;

// Of each cell, the smallest cell of its group, and 1 where it is an end of a link, else 0.
#[derive(Clone, Copy)]
pub struct Ends {
    pub first: [u16; PLACES],
    pub linked: [u8; PLACES],
}

// Those of a window.
pub fn of_window(window: Window) -> Ends
    ensures { result ≡ ends_of_lem window.entry.clock window.entry.counts.now window.entry.log.now }
{
    let k = slides::open_slide(window.clock);
    let mut parent = forest::fresh_parents();
    let mut linked = [0u8; PLACES];
    for age in 0..window.slides() {
        let pairs = window.pairs(k - age as u64);
        for &[one, other] in pairs {
            join_pair(one, other, &mut parent, &mut linked);
        }
    }
    to_roots(&mut parent);
    Ends {
        first: parent,
        linked,
    }
}

// Joins one pair of the log, and marks its two cells. A pair with an entry that is no cell is no link.
fn join_pair(one: u16, other: u16, parent: &mut [u16; PLACES], linked: &mut [u8; PLACES])
    requires { Descends parent.old }
    ensures { Joins (keep (record { one = one; other = other }) []) parent.old linked.old
        parent.new linked.new }
{
    if !are_cells(one, other) {
        return;
    }
    join(parent, one, other);
    linked[one as usize] = 1;
    linked[other as usize] = 1;
}

// Puts each cell's root for its parent, from cell 0 on. A cell's parent is not above it, so it is a root or has its root for its parent already:
// the parent's parent is the root.
#[tactic(auto, using(crate::proofs::Rooting::above_below, crate::proofs::Rooting::rooting_all))]
fn to_roots(parent: &mut [u16; PLACES])
    requires { Descends parent.old }
    ensures { ToRoots parent.old parent.new }
{
    for cell in 0..PLACES {
        let above = parent[cell] as usize;
        parent[cell] = parent[above];
    }
}
