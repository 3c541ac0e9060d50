// The newest label from which on links of the window chain two cells. The links are joined slide by slide, newest first, in scratch
// parents, up to the link with which the two cells meet: its label is the one, and older links are not read.
#![tactic(auto)]

ghost use Rattle.std.specs.Prelude.{◌≡◌, [], suc, ◌≤◌, MatchOption};
ghost use Rattle.book_state.specs.Log.{keep};
ghost use Rattle.forest_scratch.specs.Scratch.{Descends};
ghost use Rattle.window.specs.Window.{window_links, highest};
ghost use Rattle.chain_newest.specs.Tracks.{Follows};

use book_state::are_cells;
use forest::PLACES;
use forest_scratch::{Roots, join, moved};
use window::Window;

// The largest label, n + 1 at most, such that the window's links from it on chain the two; none where no links do. A cell and itself are
// chained with no link at all.
pub fn newest_label(window: Window, one: u16, other: u16) -> Option<u8>
    ensures { let label = highest (suc window.entry.clock.n) (window_links window.entry.clock window.entry.counts.now window.entry.log.now) one other in
        MatchOption result (label ≡ 0) (λ newest. (newest ≡ label) × (1 ≤ newest)) }
{
    if one == other {
        return Some(window.clock.n + 1);
    }
    let k = slides::open_slide(window.clock);
    let mut parent = forest::fresh_parents();
    let mut roots = Roots { one, other };
    for age in 0..window.slides() {
        let pairs = window.pairs(k - age as u64);
        for &[a, b] in pairs {
            roots = join_pair(a, b, &mut parent, roots);
            if roots.one == roots.other {
                return Some(window.clock.n - age);
            }
        }
    }
    None
}

// Joins one pair of the log, and follows the two cells, which have these roots. A pair with an entry that is no cell is no link.
fn join_pair(one: u16, other: u16, parent: &mut [u16; PLACES], from: Roots) -> Roots
    requires { Descends parent.old }
    ensures { Follows (keep (record { one = one; other = other }) []) parent.old from parent.new result }
{
    if !are_cells(one, other) {
        return from;
    }
    let r = join(parent, one, other);
    if r.one == r.other {
        return from;
    }
    let child = r.one.max(r.other);
    let top = r.one.min(r.other);
    Roots {
        one: moved(from.one, child, top),
        other: moved(from.other, child, top),
    }
}
