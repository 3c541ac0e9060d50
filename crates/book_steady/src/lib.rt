// Whether number 1 can come from a book, whatever links it takes (RULES 7.8, 3.5).
//
// Not from one that is in order and whose forward forest has the sizes that links make: each step at least doubles the size, and the
// trees have all cells between them. Such a book stays in order (`linked_steady` in proofs/StaysInOrder.antt): a link keeps the sizes so,
// and a forest that time makes is made of links. Any other book has to be asked number 1 at each link, as the link call does; so no answer
// depends on this, only time does.
#![tactic(auto)]

ghost use Rattle.std.specs.Prelude.{◌≡◌, true};
ghost use Rattle.book_state.specs.Arrays.{step_limit};
ghost use Rattle.forest_check.specs.Sound.{sound_of};
ghost use Rattle.book_steady.specs.Steady.{grown_of, steady_of};

use book_state::{Book, CELLS};
use forest::PLACES;

// Whether the book is in order and stays so.
#[tactic(auto, unfolding(crate::specs::Steady::steady_of))]
pub fn steady(book: &Book) -> bool
    ensures { result ≡ steady_of book.now }
{
    book.in_order() && grown(&book.forward_parent, &book.forward_size)
}

// Whether each step doubles the size, and the roots' sizes add up to the cells.
fn grown(parent: &[u16], size: &[u16]) -> bool
    requires { sound_of parent.now size.now step_limit ≡ true }
    ensures { result ≡ grown_of parent.now size.now }
{
    if parent.len() != PLACES {
        return false;
    }
    let mut cells: u32 = 0;
    for i in 0..PLACES {
        let up = parent[i] as usize;
        let own = size[i] as u32;
        if up == i {
            cells += own;
        } else if (size[up] as u32) < 2 * own {
            return false;
        }
    }
    cells == CELLS as u32
}
