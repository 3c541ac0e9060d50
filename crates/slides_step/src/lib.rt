// The step that moves time: a clock at a tick. Time never moves back.
#![tactic(auto)]

ghost use Rattle.std.specs.Prelude.{◌≡◌};
ghost use Rattle.slides.specs.Clock.{moved_to};

use slides::Clock;

// The clock after a tick, by value.
#[tactic(auto, unfolding(slides::specs::Clock::moved_to))]
pub fn moved(clock: Clock, tick: u32) -> Clock
    ensures { result ≡ moved_to clock tick }
{
    Clock {
        total: slides::total_with(clock, tick),
        ..clock
    }
}

// The clock's record, lent and altered there.
pub fn advance(clock: &mut Clock, tick: u32)
    ensures { clock.new ≡ moved_to clock.old tick }
{
    *clock = moved(*clock, tick);
}
