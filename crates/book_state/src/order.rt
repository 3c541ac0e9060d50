// Number 1 (RULES 7.8), for a whole book: its fields are in their ranges, and no walk in either forest exceeds its steps.
ghost use Rattle.std.specs.Prelude.{◌≡◌};
ghost use Rattle.book_state.specs.Order.{in_order_of};

use super::{Book, STEP_LIMIT};
use cells::Fitting;
use settings::Settings;
use slides::Clock;

impl Book {
    // Whether the book is in order.
    pub fn in_order(&self) -> bool
        ensures { result ≡ in_order_of self.now }
    {
        in_order(
            self.clock,
            self.fitting,
            &self.counts,
            &self.forward_parent,
            &self.forward_size,
            &self.backward_parent,
            &self.backward_size,
            &self.backward_label,
        )
    }
}

// The same of a book's fields, each lent for itself. They stay one by one here alone: this function promises its answer for slices of any
// length, which no book has.
#[tactic(auto, unfolding(crate::specs::Order::in_order_of))]
pub fn in_order(
    clock: Clock,
    fitting: Fitting,
    counts: &[u16],
    forward_parent: &[u16],
    forward_size: &[u16],
    backward_parent: &[u16],
    backward_size: &[u16],
    backward_label: &[u8],
) -> bool
    ensures { result ≡ in_order_of (record { forward_parent = forward_parent.now; forward_size = forward_size.now; backward_parent = backward_parent.now; backward_size = backward_size.now; counts = counts.now; clock = clock; backward_label = backward_label.now; fitting = fitting }) }
{
    let held = Settings {
        t0: clock.t0,
        b: clock.b,
        n: clock.n,
        mounting: fitting.mounting,
    };
    slides::in_range(clock)
        && settings::judge(held).is_ok()
        && forest_check::all_within(counts, 0, 257)
        && forest_check::sound(forward_parent, forward_size, STEP_LIMIT)
        && forest_check::sound(backward_parent, backward_size, STEP_LIMIT)
        && forest_check::labels_within(backward_label, 15)
}
