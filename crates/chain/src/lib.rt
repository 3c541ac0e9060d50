// The chain call: the newest slide from which on links chain two cells, the best trail over those links, and for how many
// further closings the two stay joined.
#![tactic(auto)]

ghost use Rattle.std.specs.Prelude.{◌≡◌, ◌≤◌, ◌<◌, true, length};
ghost use Rattle.book_state.specs.Numbers.{are_cells_of};
ghost use Rattle.chain_fewest.specs.Best.{TrailGiven};
ghost use Rattle.chain.specs.Chain.{chain_places, label_of, chain_cells, told, chain_of, GivesChain};

use book_state::{Book, are_cells};
use forest::PLACES;
use refusals::Refusal;
use window::{Links, Window};

// What is told of the chain of two cells, which stands at the front of a buffer.
#[derive(Clone, Copy)]
pub struct Chain {
    // L, the newest slide from which on links chain the two. A slide is told by its total: the ticks come again (RULES 2.4)
    pub newest: u64,
    // the number of cells of the chain
    pub cells: u16,
    // for how many further closings the two stay joined
    pub hold: u8,
}

// The same for the interface, with the number of the table; with a number that is not 0 all else is 0.
#[repr(C)]
#[derive(Clone, Copy)]
pub struct ChainAnswer {
    pub newest: u64,
    pub cells: u16,
    pub hold: u8,
    pub number: u8,
}

impl From<Result<Chain, Refusal>> for ChainAnswer {
    ghost from_gives = { λ chain answer. answer ≡ told chain };

    fn from(chain: Result<Chain, Refusal>) -> ChainAnswer {
        match chain {
            Ok(chain) => ChainAnswer {
                newest: chain.newest,
                cells: chain.cells,
                hold: chain.hold,
                number: 0,
            },
            Err(refusal) => ChainAnswer {
                newest: 0,
                cells: 0,
                hold: 0,
                number: u8::from(refusal),
            },
        }
    }
}

// The chain between two cells, written to the front of the buffer; later places keep what they had, and on refusal all places do. The checks
// come in the order 1, 6, 3, 7.
#[tactic(auto, using(numbers::proofs::Checks::has_length), unfolding(crate::specs::Chain::chain_of, crate::specs::Chain::chain_number, crate::specs::Chain::chain_by_number, numbers::specs::Checks::first_of))]
pub fn between(
    book: &Book,
    log: &[u16],
    one: u16,
    other: u16,
    chain: &mut [u16],
) -> Result<Chain, Refusal>
    ensures { GivesChain (chain_of book.now log.now chain.old one other) (told result) chain.new }
{
    let window = Window::of(book, log)?;
    if chain.len() < PLACES {
        return Err(Refusal::Short);
    }
    if !are_cells(one, other) {
        return Err(Refusal::NoCell);
    }
    let Some(label) = chain_newest::newest_label(window, one, other) else {
        return Err(Refusal::NoTrail);
    };
    let cells = trail_from(window, label, one, other, chain);
    let k = slides::open_slide(window.clock);
    let newest = k + label as u64 - window.clock.n as u64;
    Ok(Chain {
        newest,
        cells,
        hold: label - 1,
    })
}

// The best trail over the window's links from the label on, which is the largest such that these chain the two.
fn trail_from(window: Window, label: u8, one: u16, other: u16, chain: &mut [u16]) -> u16
    requires room { chain_places ≤ length chain.old }
    requires two { are_cells_of one other ≡ true }
    requires label_value { (label ≡ label_of window.clock window.counts.now window.log.now one other) × (0 < label) }
    ensures { TrailGiven (chain_cells window.entry.clock window.entry.counts.now window.entry.log.now one other) chain.old result chain.new }
{
    let slides = window.clock.n + 1 - label;
    let mut links = Links::none();
    window::gather_newest(window, slides, &mut links);
    chain_fewest::best_trail(
        &links.ones[..links.count],
        &links.others[..links.count],
        one,
        other,
        chain,
    )
}
