// The labelled forest of RULES 3 in arrays: parents, sizes and labels of cells, each an array of its own.
// What reads them takes slices: a cell beyond a slice is its own root, of size 1, with label 0.
#![tactic(auto)]

ghost use Rattle.std.specs.Prelude.{◌≡◌};
ghost use Rattle.forest.specs.Arrays.{places, fresh_parents_of, fresh_sizes_of, fresh_labels_of};

// How long an array of cells is. A book has at most as many cells.
pub const PLACES: usize = 1024;

// Where a walk ends, and its parent steps.
#[derive(Clone, Copy)]
pub struct Walk {
    pub root: u16,
    pub steps: u8,
}

// The parents of a fresh forest: each cell is its own root.
pub fn fresh_parents() -> [u16; PLACES]
    ensures { result ≡ fresh_parents_of places }
{
    std::array::from_fn(|cell| cell as u16)
}

// Its sizes: each tree has one cell.
pub fn fresh_sizes() -> [u16; PLACES]
    ensures { result ≡ fresh_sizes_of places }
{
    [1; PLACES]
}

// Its labels, all 0: no step is taken yet.
pub fn fresh_labels() -> [u8; PLACES]
    ensures { result ≡ fresh_labels_of places }
{
    [0; PLACES]
}
