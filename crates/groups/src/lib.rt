// The groups call: of each cell of a book what its group in the window is, to the fronts of three lent outputs (RULES 8.9). Where the book
// cannot be read or an output is too short nothing changes.
#![tactic(auto)]

ghost use Rattle.std.specs.Prelude.{◌≡◌, ◌&&◌};
ghost use Rattle.numbers.specs.Checks.{has};
ghost use Rattle.book_state.specs.Arrays.{cells};
ghost use Rattle.groups.specs.Call.{groups_given, told, GivesGroups};

use book_state::Book;
use forest::PLACES;
use refusals::Refusal;
use window::Window;

// What the call gives through the interface: how many links the window holds, repeats counted, and the number of the table.
#[repr(C)]
#[derive(Clone, Copy)]
pub struct GroupsAnswer {
    pub links: u32,
    pub number: u8,
}

impl From<Result<u32, Refusal>> for GroupsAnswer {
    ghost from_gives = { λ links answer. answer ≡ told links };

    fn from(links: Result<u32, Refusal>) -> GroupsAnswer {
        match links {
            Ok(links) => GroupsAnswer { links, number: 0 },
            Err(refusal) => GroupsAnswer {
                links: 0,
                number: u8::from(refusal),
            },
        }
    }
}

// Whether each output has room for a number of each cell.
#[tactic(auto, using(numbers::proofs::Checks::has_length))]
fn have_room(first: &[u16], size: &[u16], hold: &[u8]) -> bool
    ensures { result ≡ (has cells first.now && has cells size.now && has cells hold.now) }
{
    PLACES <= first.len() && PLACES <= size.len() && PLACES <= hold.len()
}

// The groups of a book's window to the fronts of the outputs, of each cell its group's smallest cell, number of cells and least hold; and how
// many links the window holds. The checks come in the order 1, 6.
#[tactic(auto, using(window::proofs::WindowLinks::window_few), unfolding(crate::specs::Call::groups_given, crate::specs::Call::groups_by_number, numbers::specs::Checks::first_of, window_groups::specs::Groups::groups_of))]
pub fn put(
    book: &Book,
    log: &[u16],
    first: &mut [u16],
    size: &mut [u16],
    hold: &mut [u8],
) -> Result<u32, Refusal>
    ensures { GivesGroups (groups_given book.now log.now first.old size.old hold.old) (told result)
        first.new size.new hold.new }
{
    let window = Window::of(book, log)?;
    if !have_room(first, size, hold) {
        return Err(Refusal::Short);
    }
    let groups = window_groups::of_window(window);
    front::put(&groups.first, first);
    front::put(&groups.count, size);
    front::put(&groups.hold, hold);
    Ok(groups.links as u32)
}
