// The body mask, and the groups that it marks.
ghost use Rattle.std.specs.Prelude.{◌≡◌, ◌≤◌, ◌<◌, length};
ghost use Rattle.book_state.specs.Arrays.{cells};
ghost use Rattle.lamps.specs.Mask.{is_mask_of};
ghost use Rattle.lamps.specs.Groups.{Firsts, Marks};

use super::CELLS;

// Whether it is a mask: a byte for each cell, 0 or 1. The pass goes on where a byte is neither, with no way out, so that a machine can
// take several bytes at a time.
#[tactic(auto, using(crate::proofs::Mask::mask_none, crate::proofs::Mask::mask_over, crate::proofs::Mask::mask_on, crate::proofs::Mask::mask_short))]
pub fn is_mask(mask: &[u8]) -> bool
    ensures { result ≡ is_mask_of cells mask.now }
{
    if mask.len() < CELLS {
        return false;
    }
    let mut fine = true;
    for i in 0..CELLS {
        if 1 < mask[i] {
            fine = false;
        }
    }
    fine
}

// The groups that have a body cell, marked at their smallest cells by 1. A whole group goes dark by one of its cells.
#[tactic(auto, using(crate::proofs::Groups::marks_body, crate::proofs::Groups::marks_other), unfolding(crate::specs::Lamps::some_below))]
pub fn groups(first: &[u16; CELLS], mask: &[u8]) -> [u8; CELLS]
    requires { Firsts first.now × (cells ≤ length mask.now) }
    ensures { Marks first.now mask.now cells result }
{
    let mut dark = [0u8; CELLS];
    for cell in 0..CELLS {
        if mask[cell] == 1 {
            let group = first[cell] as usize;
            dark[group] = 1;
        }
    }
    dark
}
