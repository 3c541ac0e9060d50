// Links in arrays of a fixed size: there is no heap. Link i joins ones[i] and others[i] and has the label labels[i]; a trail is asked for over
// the first two alone.
ghost use Rattle.std.specs.Prelude.{◌≤◌};

use book_state::are_cells;

// As many as a window has: 16 slides of 256 links.
const MOST: usize = 4096;

#[derive(Drop)]
pub struct Links {
    pub ones: [u16; MOST],
    pub others: [u16; MOST],
    pub labels: [u8; MOST],
    pub count: usize,
    ghost few: { count ≤ 4096 },
}

impl Links {
    ghost use Rattle.std.specs.Prelude.{◌≡◌, ◌+◌, ◌≤◌, map, length};
    ghost use Rattle.book_state.specs.Log.{labelled};
    ghost use Rattle.window.specs.Pairs.{links_of_pairs};
    ghost use Rattle.window.specs.Gathered.{NoLinks, Put};

    // No links.
    pub fn none() -> Links
        ensures { NoLinks result }
    {
        Links {
            ones: [0; MOST],
            others: [0; MOST],
            labels: [0; MOST],
            count: 0,
        }
    }

    // Puts the links of some pairs after those that are there, each with the label. A pair with an entry that is no cell is no link.
    #[tactic(auto, using(crate::proofs::Putting::put_none), unfolding(crate::specs::Pairs::links_of_pairs))]
    pub fn put_pairs(&mut self, pairs: &[[u16; 2]], label: u8)
        requires { self.old.count + length pairs.now ≤ 4096 }
        ensures { Put (map (labelled label) (links_of_pairs pairs.now)) self.old.count self.old self.new }
    {
        // The count stands in a register meanwhile: the arrays beside it are written.
        let mut end = self.count;
        for &[one, other] in pairs {
            if are_cells(one, other) {
                self.ones[end] = one;
                self.others[end] = other;
                self.labels[end] = label;
                end += 1;
            }
        }
        self.count = end;
    }
}
