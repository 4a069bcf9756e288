// Refusal 1. 01 The stage numbers
ghost use Rattle.std.specs.Prelude.{◌≡◌};
ghost use Rattle.model.specs.Numbers.{on_clock};

use arith::time::{LIMIT, Moment};

// Whether refusal 1 spares a moment, after the clock's. 01 The stage numbers
#[tactic(auto, unfolding(model::specs::Numbers::on_clock))]
pub fn on_clock(clock: Moment, now: Moment) -> bool
    ensures { result ≡ on_clock clock now }
{
    clock.0 <= now.0 && now.0 <= LIMIT
}
