// Where the links of a slide are counted and logged: the spot of its place in the half of its chunk.
ghost use Rattle.std.specs.Prelude.{◌≡◌, ◌++◌, ◌≤◌, length, drop, replicate};
ghost use Rattle.slides.specs.Clock.{chunk_of, place_of};
ghost use Rattle.book_state.specs.Log.{half_of, spot_of, stored_in};

use slides::Clock;

// The spot of a slide in the counts and in the log.
pub fn spot(clock: Clock, slide: u64) -> usize
    ensures { result ≡ spot_of (half_of (chunk_of clock slide)) (place_of clock slide) }
{
    let half = (slides::chunk(clock, slide) % 2) as usize;
    let place = slides::place(clock, slide) as usize;
    half * 16 + place
}

// How many links the slide holds already: none, unless it is of the open chunk.
pub fn stored(clock: Clock, counts: &[u16], slide: u64) -> u16
    ensures { result ≡ stored_in clock counts.now slide }
{
    let open = slides::open_slide(clock);
    if slides::chunk(clock, slide) != slides::chunk(clock, open) {
        return 0;
    }
    let at = spot(clock, slide);
    counts.get(at).copied().unwrap_or(0)
}

// The first `count` places made 0, and no others.
pub fn clear(places: &mut [u16], count: usize)
    requires { count ≤ length places.old }
    ensures { places.new ≡ replicate count 0 ++ drop count places.old }
{
    places[..count].fill(0);
}
