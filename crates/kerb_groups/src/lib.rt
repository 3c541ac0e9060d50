// The interface for C and Rust: the groups of the window. What it gives, and what the lent buffers hold at the end, is what its definition
// says, for every input.
#![tactic(auto)]

ghost use Rattle.groups.specs.Call.{groups_given, GivesGroups};

use book_state::Book;
use groups::GroupsAnswer;

// Of each cell its group's smallest cell, number of cells and least hold, at the fronts of three buffers (RULES 8.9).
#[unsafe(no_mangle)]
pub extern "C" fn kerb_groups(
    book: &Book,
    log: &[u16],
    first: &mut [u16],
    size: &mut [u16],
    hold: &mut [u8],
) -> GroupsAnswer
    ensures { GivesGroups (groups_given book.now log.now first.old size.old hold.old)
        result first.new size.new hold.new }
{
    GroupsAnswer::from(groups::put(book, log, first, size, hold))
}
