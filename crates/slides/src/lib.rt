// The clock's few numbers, and what follows from them: the time, the slide of a tick, the chunk and the place of a slide.
#![tactic(auto)]

ghost use Rattle.std.specs.Prelude.{◌≡◌, true, false};
ghost use Rattle.slides.specs.Counter.{counter_at_of};
ghost use Rattle.slides.specs.Clock.{time_of, difference_of, not_before_of, total_with_of, slide_of, ticks_if, ticks_of, open_slide_of, chunk_of, place_of, started, clock_in_range};

use settings::Settings;

#[repr(C)]
#[derive(Clone, Copy)]
pub struct Clock {
    // the total: how many ticks have passed since T0, each turn of the unit's counter counted. The time follows from it
    pub total: u64,
    // T0, the first tick
    pub t0: u32,
    // B, the slide length in ticks
    pub b: u32,
    // the window width in slides
    pub n: u8,
    // no meaning: every byte is a field's, so that none is left undefined
    pub pad: [u8; 7],
}

// The largest total.
const TOTAL_MOST: u64 = 9223372036854775807;

// A turn of the unit's counter, and half of it.
const TURN: u64 = 4294967296;

const HALF_TURN: u32 = 2147483648;

// The clock of a book that opens: time starts at T0.
pub fn start(s: Settings) -> Clock
    ensures { result ≡ started s }
{
    Clock {
        total: 0,
        t0: s.t0,
        b: s.b,
        n: s.n,
        pad: [0; 7],
    }
}

// Whether the clock's numbers are such as a book may hold.
#[tactic(auto, unfolding(crate::specs::Clock::clock_in_range))]
pub fn in_range(clock: Clock) -> bool
    ensures { result ≡ clock_in_range clock }
{
    1 <= clock.n && clock.n <= 16 && 1 <= clock.b && clock.total <= TOTAL_MOST
}

// Where the counter stands when so many ticks have passed since T0: it goes round.
#[tactic(auto, unfolding(crate::specs::Counter::counter_at_of))]
fn counter_at(t0: u32, total: u64) -> u32
    ensures { result ≡ counter_at_of t0 total }
{
    t0.wrapping_add((total % TURN) as u32)
}

// The time: the latest tick that was taken.
pub fn time(clock: Clock) -> u32
    ensures { result ≡ time_of clock }
{
    counter_at(clock.t0, clock.total)
}

// How far a tick is ahead of the time, as the counter goes.
#[tactic(auto, unfolding(crate::specs::Counter::ahead, crate::specs::Counter::counter_at_of))]
fn difference(clock: Clock, tick: u32) -> u32
    ensures { result ≡ difference_of clock tick }
{
    tick.wrapping_sub(time(clock))
}

// Whether a tick becomes the time: it is less than half a turn ahead, and the total has room for that.
#[tactic(auto, unfolding(crate::specs::Clock::not_before_of))]
pub fn not_before(clock: Clock, tick: u32) -> bool
    ensures { result ≡ not_before_of clock tick }
{
    let more = difference(clock, tick);
    more < HALF_TURN && clock.total <= TOTAL_MOST && more as u64 <= TOTAL_MOST - clock.total
}

// The total that a tick makes. A tick that is before the time adds nothing.
#[tactic(auto, unfolding(crate::specs::Clock::not_before_of, crate::specs::Clock::total_with_of))]
pub fn total_with(clock: Clock, tick: u32) -> u64
    ensures { result ≡ total_with_of clock tick }
{
    if !not_before(clock, tick) {
        return clock.total;
    }
    clock.total + difference(clock, tick) as u64
}

// The slide of the total that a tick makes. 0 for a slide of 0 ticks, which no book in range meets.
#[tactic(auto, unfolding(crate::specs::Clock::slide_of))]
pub fn slide(clock: Clock, tick: u32) -> u64
    ensures { result ≡ slide_of clock tick }
{
    total_with(clock, tick)
        .checked_div(clock.b as u64)
        .unwrap_or(0)
}

#[tactic(auto, unfolding(crate::specs::Clock::open_slide_of))]
pub fn open_slide(clock: Clock) -> u64
    ensures { result ≡ open_slide_of clock }
{
    clock.total.checked_div(clock.b as u64).unwrap_or(0)
}

// The totals of a slide, from the first to the last, where the counter stands at these two, and whether there are any; else all are 0. The flag is
// the C interface's (`kerb_slide_ticks` gives this struct).
#[repr(C)]
#[derive(Clone, Copy)]
pub struct SlideTicks {
    pub first_total: u64,
    pub last_total: u64,
    pub first: u32,
    pub last: u32,
    pub exists: bool,
}

#[tactic(auto, unfolding(crate::specs::Clock::ticks_if))]
pub fn ticks(clock: Clock, slide: u64) -> SlideTicks
    ensures { result ≡ ticks_of clock slide }
{
    let b = clock.b as u64;
    if b == 0 {
        return no_ticks();
    }
    // No slide is after that of the largest total.
    if TOTAL_MOST / b < slide {
        return no_ticks();
    }
    let first = slide * b;
    ticks_between(clock.t0, first, first + (b - 1).min(TOTAL_MOST - first))
}

#[tactic(auto, unfolding(crate::specs::Clock::ticks_if))]
fn no_ticks() -> SlideTicks
    ensures { result ≡ ticks_if false 0 0 0 }
{
    SlideTicks {
        first_total: 0,
        last_total: 0,
        first: 0,
        last: 0,
        exists: false,
    }
}

#[tactic(auto, unfolding(crate::specs::Clock::ticks_if))]
fn ticks_between(t0: u32, first: u64, last: u64) -> SlideTicks
    ensures { result ≡ ticks_if true t0 first last }
{
    SlideTicks {
        first_total: first,
        last_total: last,
        first: counter_at(t0, first),
        last: counter_at(t0, last),
        exists: true,
    }
}

pub fn chunk(clock: Clock, slide: u64) -> u64
    ensures { result ≡ chunk_of clock slide }
{
    slide.checked_div(clock.n as u64).unwrap_or(0)
}

#[tactic(auto, unfolding(crate::specs::Clock::place_of))]
pub fn place(clock: Clock, slide: u64) -> u8
    ensures { result ≡ place_of clock slide }
{
    slide.checked_rem(clock.n as u64).unwrap_or(0) as u8
}
