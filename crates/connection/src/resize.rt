// The datagram size changes. 01 Timer and PTO (000).
ghost use Rattle.std.specs.Prelude.{◌≡◌, List, ℕ};
ghost use Rattle.model.specs.Cubic as cubic;
ghost use Rattle.model.specs.Events.{on_size_change};
ghost use Rattle.connection.specs.View.{connection_of, Does};
ghost use Rattle.connection.specs.Steps.{shared_sized, with_shared_state};
ghost use Rattle.connection.specs.Answers.{outcome_says, shared_by};

use crate::parts::refused;
use crate::{Answer, State};
use arith::refusal::Refusal;
use congestion::growth::resized;
use front::settings::is_datagram_size;
use model::{Congestion, Shared};

// The state with another size and controller.
#[tactic(auto, unfolding(crate::specs::Steps::shared_sized))]
fn sized(s: State, size: u64, g: Congestion) -> State
    ensures { result ≡ with_shared_state (shared_sized size g s.shared) s }
{
    State {
        shared: Shared {
            max_datagram_size: size,
            congestion: g,
            ..s.shared
        },
        ..s
    }
}

// What the controller makes of the size.
#[tactic(auto, unfolding(model::specs::Cubic::resized))]
fn told(s: State, size: u64) -> Result<Congestion, Refusal>
    ensures { result ≡ cubic.resized s.shared.max_datagram_size size s.shared.congestion }
{
    resized(s.shared.congestion, s.shared.max_datagram_size, size)
}

// A size that path MTU discovery found. Refusals 2 and 7. 01 Timer and PTO (000); 000 pmtud_update_max_datagram_size
pub fn pmtud_update_max_datagram_size(s: State, size: u64) -> Answer<()>
    ensures { (m : List ℕ) → Does (on_size_change size (connection_of m s)) (outcome_says result.outcome) m m s result.state (shared_by s) (λ _. m) }
{
    if !is_datagram_size(size) {
        return refused(s, Refusal::Domain);
    }
    match told(s, size) {
        Ok(g) => Answer {
            outcome: Ok(()),
            state: sized(s, size, g),
        },
        Err(k) => refused(s, k),
    }
}
