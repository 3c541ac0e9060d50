// The best trail, from the first cell down: always on to the smallest cell across a link from which one cell fewer leads
// on. Each cell's links are walked once, so the time is linear in cells and links.
ghost use Rattle.std.specs.Prelude.{◌≡◌, ℕ, ◌<◌, length};
ghost use Rattle.forest.specs.Arrays.{places};
ghost use Rattle.numbers.specs.Front.{at_front};
ghost use Rattle.graph.specs.Trail.{trail_of};
ghost use Rattle.chain_fewest.specs.Joined.{joined_by};
ghost use Rattle.chain_fewest.specs.Descent.{Smaller, Nearer, NextCell, DescentReady};

use super::links::{Links, Side};
use buckets::entry_at;
use forest::PLACES;

// The smaller of `best` and the smallest cell across a link of the cell, read from one side, with the number.
fn smallest_across(
    side: Side,
    remaining: &[u16; PLACES],
    cell: usize,
    number: usize,
    best: usize,
) -> usize
    requires { cell < places }
    ensures { Smaller side.entry remaining.now cell number best result }
{
    let mut found = best;
    // Along the cell's list, whose links are no run of numbers.
    let mut link = entry_at(side.first, cell);
    while link < side.from.len() {
        let across = entry_at(side.to, link);
        if entry_at(remaining, across) == number {
            found = found.min(across);
        }
        link = entry_at(side.next, link);
    }
    found
}

// The smallest cell across a link of the cell from which one cell fewer leads on.
fn next_cell(links: Links, remaining: &[u16; PLACES], cell: usize) -> usize
    requires inside { cell < places }
    requires nearer { (d : ℕ) × Nearer (joined_by links) remaining.now cell d }
    ensures { NextCell (joined_by links.entry) remaining.now cell result }
{
    let number = entry_at(remaining, cell) - 1;
    // The number of cells stands for no cell yet: with Option a trail of 1,024 cells takes 17.8 µs in place of 16.7.
    let found = smallest_across(links.forth, remaining, cell, number, PLACES);
    smallest_across(links.back, remaining, cell, number, found)
}

// Writes the best trail from one cell to the other to the front of the chain; later places keep what they had.
pub fn descend(links: Links, remaining: &[u16; PLACES], one: usize, other: usize, chain: &mut [u16])
    requires { DescentReady (joined_by links) remaining.now one other chain.old }
    ensures { chain.new ≡ at_front (trail_of (joined_by links.entry) one other) chain.old }
{
    let mut cell = one;
    // The cell, and not the place, says where the trail ends.
    let mut place = 0;
    while cell != other {
        chain[place] = cell as u16;
        place += 1;
        cell = next_cell(links, remaining, cell);
    }
    chain[place] = cell as u16;
}
