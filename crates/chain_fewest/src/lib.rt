// The best trail over links in two lists, with fewest cells and first by cell numbers: link i joins ones[i] and others[i]. From
// the second cell on each cell gets the number of cells that lead on from it, level by level; then the trail goes from the
// first cell always to the smallest cell one nearer.
#![tactic(auto)]

mod descent; // descent.rt: the best trail, from the first cell down
mod levels; // levels.rt: how many cells lead on from each cell
mod links; // links.rt: the links, as read from either side

ghost use Rattle.graph.specs.Trail.{trail_of};
ghost use Rattle.chain_fewest.specs.Lists.{links_of};
ghost use Rattle.chain_fewest.specs.Best.{TrailAskable, TrailGiven};

use descent::descend;
use forest::PLACES;
use levels::Search;
use links::{Links, Side};

// Writes the best trail from one cell to the other to the front of the chain, and returns its number of cells. It has no cell
// twice, so the chain has room.
pub fn best_trail(ones: &[u16], others: &[u16], one: u16, other: u16, chain: &mut [u16]) -> u16
    requires { TrailAskable ones.now others.now one other chain.old }
    ensures { TrailGiven (trail_of (links_of ones.now others.now) one other) chain.old result
        chain.new }
{
    // The number of links ends a list: to begin with, all are empty. Structs of two arrays that a function gives back are copied: 1.4 µs in
    // place of 0.6 for 16 links.
    let end = ones.len() as u16;
    let mut first_one = [end; PLACES];
    let mut next_one = [0u16; 4096];
    let mut first_other = [end; PLACES];
    let mut next_other = [0u16; 4096];
    let links = Links {
        forth: Side::list(ones, others, &mut first_one, &mut next_one),
        back: Side::list(others, ones, &mut first_other, &mut next_other),
    };
    let mut search = Search::new();
    search.count(links, other);
    descend(
        links,
        &search.remaining,
        one as usize,
        other as usize,
        chain,
    );
    search.remaining[one as usize]
}
