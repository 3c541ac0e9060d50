// The groups of a window: cells that its links chain together. A group is a tree of the forest of those links, so what is told of
// a cell's group is read off the forest, at the cell's root.
#![tactic(auto)]

mod trees; // trees.rt: what the trees of a forest tell

ghost use Rattle.std.specs.Prelude.{◌≡◌};
ghost use Rattle.window_groups.specs.Groups.{groups_of};

use forest::PLACES;
use window::{Links, Window};

// Of each cell, what its group is: its smallest cell, how many cells it has, and the least hold over its pairs. And how many links
// the window has. An array for each, as it is given out: whole, to an output of its own.
#[derive(Clone, Copy)]
pub struct Groups {
    pub first: [u16; PLACES],
    pub count: [u16; PLACES],
    pub hold: [u8; PLACES],
    pub links: usize,
}

// The groups of a window.
pub fn of_window(window: Window) -> Groups
    ensures { result ≡ groups_of window.entry.clock window.entry.counts.now window.entry.log.now }
{
    let mut links = Links::none();
    window::gather(window, &mut links);
    let forest = window_forest::grow(&links);
    let root = trees::roots(&forest);
    let tallies = trees::tally(&root, &forest, window.clock.n + 1);
    trees::at_roots(&root, &tallies, links.count)
}
