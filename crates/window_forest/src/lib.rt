// The labelled forest of the window's links, grown from the arrays into which they are gathered.
#![tactic(auto)]

ghost use Rattle.std.specs.Prelude.{◌≡◌};
ghost use Rattle.window.specs.Gathered.{array_links};
ghost use Rattle.window_forest.specs.LinkForest.{grown_from};

use book_state::STEP_LIMIT;
use forest::PLACES;
use window::Links;

// A forest of links: of each cell its parent, and the label of the step to it.
#[derive(Clone, Copy)]
pub struct LinkForest {
    pub parent: [u16; PLACES],
    pub label: [u8; PLACES],
}

// The forest of links in arrays, united from the first to the last. It stays a function of its own for the sake of the stack: the arrays that it
// grows are not on it together with what its caller makes of the forest.
#[inline(never)]
#[tactic(auto, using(crate::proofs::Growing::growing_none, crate::proofs::Growing::growing_one, crate::proofs::Growing::growing_all))]
pub fn grow(links: &Links) -> LinkForest
    ensures { result ≡ grown_from (array_links links.now.ones links.now.others links.now.labels links.now.count) }
{
    let mut parent = forest::fresh_parents();
    let mut size = forest::fresh_sizes();
    let mut label = forest::fresh_labels();
    for i in 0..links.count {
        forest_unite::unite(
            &mut parent,
            &mut size,
            &mut label,
            STEP_LIMIT,
            links.labels[i],
            links.ones[i],
            links.others[i],
        );
    }
    LinkForest { parent, label }
}
