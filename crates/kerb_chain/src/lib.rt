// The interface for C and Rust: the chain call. What it gives, and what the lent buffer holds at the end, is what its definition says, for
// every input.
#![tactic(auto)]

ghost use Rattle.chain.specs.Chain.{chain_of, GivesChain};

use book_state::Book;
use chain::ChainAnswer;

// The chain goes to the front of the buffer.
#[unsafe(no_mangle)]
pub extern "C" fn kerb_chain(
    book: &Book,
    log: &[u16],
    one: u16,
    other: u16,
    chain: &mut [u16],
) -> ChainAnswer
    ensures { GivesChain (chain_of book.now log.now chain.old one other) result chain.new }
{
    ChainAnswer::from(chain::between(book, log, one, other, chain))
}
