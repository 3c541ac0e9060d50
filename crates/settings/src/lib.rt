// What a book opens with and a link file carries: window width n, slide length B, mounting, first tick T0.
#![tactic(auto)]

ghost use Rattle.std.specs.Prelude.{◌≡◌};
ghost use Rattle.refusals.specs.Number.{number_of};
ghost use Rattle.settings.specs.Settings.{settings_number, fitting_of};

use cells::{Fitting, Mounting};
use refusals::Refusal;

#[repr(C)]
#[derive(Clone, Copy)]
pub struct Settings {
    // T0, the first tick
    pub t0: u32,
    // B, the slide length in ticks
    pub b: u32,
    // the window width in slides
    pub n: u8,
    pub mounting: u8,
}

// Number 2 where n, B or the mounting is outside its values.
pub fn judge(s: Settings) -> Result<(), Refusal>
    ensures { number_of result ≡ settings_number s }
{
    let taken = 1 <= s.n && s.n <= 16 && 1 <= s.b && Mounting::try_from(s.mounting).is_ok();
    if taken {
        Ok(())
    } else {
        Err(Refusal::Settings)
    }
}

// How the unit is fitted.
pub fn fitting(s: Settings) -> Fitting
    ensures { result ≡ fitting_of s }
{
    Fitting {
        mounting: s.mounting,
        pad: [0; 7],
    }
}
