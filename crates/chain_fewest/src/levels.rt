// How many cells the best trail from each cell to the second cell has: found from the second cell on, level by level, in
// time linear in cells and links, since each cell enters the queue once and its links are walked once.
ghost use Rattle.std.specs.Prelude.{◌<◌};
ghost use Rattle.forest.specs.Arrays.{places};
ghost use Rattle.chain_fewest.specs.Joined.{joined_by};
ghost use Rattle.chain_fewest.specs.Levels.{Counted, Blank, Ready, Reached};

use super::links::{Links, Side};
use buckets::entry_at;
use forest::PLACES;

// How many cells lead on from each cell, and 0 where it is not known yet; and the cells where it is known, in the order in which
// they got it: those from `head` to `tail` wait until the cells across their links have theirs.
#[derive(Drop)]
pub struct Search {
    pub remaining: [u16; PLACES],
    queue: [u16; PLACES],
    head: usize,
    tail: usize,
}

impl Search {
    // No cell is known.
    pub fn new() -> Search
        ensures { Blank result.remaining }
    {
        Search {
            remaining: [0; PLACES],
            queue: [0; PLACES],
            head: 0,
            tail: 0,
        }
    }

    // Counts how many cells lead on from each cell to the second one.
    pub fn count(&mut self, links: Links, other: u16)
        requires inside { other < places }
        requires blank { Blank self.old.remaining }
        ensures { Counted (joined_by links.entry) other self.new.remaining }
    {
        self.remaining[other as usize] = 1;
        self.queue[0] = other;
        self.head = 0;
        self.tail = 1;
        // The queue grows while it is passed.
        while self.head < self.tail {
            self.reach(links.forth);
            self.reach(links.back);
            self.head += 1;
        }
    }

    // Gives each cell across a link of the cell at `head`, read from one side, its number if it has none, and puts it in the
    // queue.
    fn reach(&mut self, side: Side)
        requires { Ready side self.old }
        ensures { Reached side.entry self.old self.new }
    {
        let cell = entry_at(&self.queue, self.head);
        let number = self.remaining[cell] + 1;
        // Along the cell's list, whose links are no run of numbers.
        let mut link = entry_at(side.first, cell);
        while link < side.from.len() {
            let across = entry_at(side.to, link);
            if self.remaining[across] == 0 {
                self.remaining[across] = number;
                self.queue[self.tail] = across as u16;
                self.tail += 1;
            }
            link = entry_at(side.next, link);
        }
    }
}
