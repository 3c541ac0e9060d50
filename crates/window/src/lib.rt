// The links of the current window, newest slide first. Of a book, a window takes the clock and the counts alone.
#![tactic(auto)]

mod arrays; // arrays.rt: links in arrays

ghost use Rattle.std.specs.Prelude.{◌≡◌, ◌≤◌, ◌<◌, [], ◌∷◌, IfOk, length};
ghost use Rattle.numbers.specs.Checks.{first_of, unless, has};
ghost use Rattle.refusals.specs.Number.{number_of};
ghost use Rattle.slides.specs.Clock.{chunk_of, place_of};
ghost use Rattle.book_state.specs.Numbers.{log_places};
ghost use Rattle.book_state.specs.Order.{in_order_of};
ghost use Rattle.book_state.specs.Log.{half_of, place_links, Readable};
ghost use Rattle.window.specs.Pairs.{links_of_pairs, place_pairs};
ghost use Rattle.window.specs.Window.{window_slides_of, links_from_age, window_links};
ghost use Rattle.window.specs.Gathered.{Put};

pub use arrays::Links;
use book_state::Book;
use refusals::Refusal;
use slides::Clock;

// What is read of a book and its log: the clock, the counts and the log, of which it is known that they can be read. A book in order has them.
#[derive(Clone, Copy)]
pub struct Window<'a> {
    pub clock: Clock,
    pub counts: &'a [u16; 32],
    pub log: &'a [u16],
    ghost readable: { Readable clock.n counts.now log.now },
}

impl<'a> Window<'a> {
    // That of a book and its log, where numbers 1 and 6 are not given.
    #[tactic(auto, using(book_state::proofs::Checks::readable), unfolding(numbers::specs::Checks::first_of))]
    pub fn of(book: &'a Book, log: &'a [u16]) -> Result<Window<'a>, Refusal>
        ensures number { number_of result ≡ first_of (unless (in_order_of book.now) 1 ∷ unless (has log_places log.now) 6 ∷ []) }
        ensures given { IfOk result (λ w. (w.clock ≡ book.now.clock) × (w.counts.now ≡ book.now.counts) × (w.log.now ≡ log.now)) }
    {
        if !book.in_order() {
            return Err(Refusal::OutOfOrder);
        }
        if !book_state::has_room(log) {
            return Err(Refusal::Short);
        }
        Ok(Window {
            clock: book.clock,
            counts: &book.counts,
            log,
        })
    }

    // How many slides the window has.
    pub fn slides(self) -> u8
        ensures { result ≡ window_slides_of self.entry.clock }
    {
        window_slides(self.clock)
    }

    // The pairs of a slide as they stand in the log, in order of arrival: at most 256. One with an entry that is no cell is among them, and is no link.
    #[tactic(auto, using(crate::proofs::Pairs::spot_below, crate::proofs::Pairs::pairs_stand, crate::proofs::Pairs::pairs_links, crate::proofs::Pairs::pairs_length))]
    pub fn pairs(self, slide: u64) -> &'a [[u16; 2]]
        ensures stand { result.now ≡ place_pairs self.entry.counts.now self.entry.log.now (half_of (chunk_of self.entry.clock slide)) (place_of self.entry.clock slide) }
        ensures links { links_of_pairs result.now ≡ place_links self.entry.counts.now self.entry.log.now (half_of (chunk_of self.entry.clock slide)) (place_of self.entry.clock slide) }
        ensures few { length result.now ≤ 256 }
    {
        let spot = book_state::spots::spot(self.clock, slide);
        let start = spot * 512;
        let end = start + 2 * self.counts[spot] as usize;
        let (pairs, _) = self.log[start..end].as_chunks::<2>();
        pairs
    }
}

// How many slides the window of a clock has: in a young book fewer than n exist.
pub fn window_slides(clock: Clock) -> u8
    ensures { result ≡ window_slides_of clock }
{
    let k = slides::open_slide(clock);
    if k < clock.n as u64 {
        k as u8 + 1
    } else {
        clock.n
    }
}

// Puts the links of the window into the arrays, newest slide first; those of the open slide have the label n.
#[tactic(auto, unfolding(crate::specs::Window::window_links))]
pub fn gather(window: Window, links: &mut Links)
    ensures { Put (window_links window.entry.clock window.entry.counts.now window.entry.log.now) 0 links.old links.new }
{
    gather_newest(window, window.slides(), links);
}

// The same for the links of the newest `slides` slides alone.
#[tactic(auto, using(crate::proofs::Putting::put_none), unfolding(crate::specs::Window::links_from_age))]
pub fn gather_newest(window: Window, slides: u8, links: &mut Links)
    requires { slides ≤ window_slides_of window.clock }
    ensures { Put (links_from_age window.entry.clock window.entry.counts.now window.entry.log.now 0 slides) 0 links.old links.new }
{
    let k = slides::open_slide(window.clock);
    links.count = 0;
    for age in 0..slides {
        links.put_pairs(window.pairs(k - age as u64), window.clock.n - age);
    }
}
