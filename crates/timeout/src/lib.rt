// The loss detection timeout of a connection, on one lent array of words and a few values. 01 Timer and PTO (000); RFC 9002 sections 6.1.2 and 6.2.
// A timeout decides first, reading only, and stores when nothing can refuse any more. No public function has a `requires`.
#![tactic(auto)]

ghost use Rattle.std.specs.Prelude.{◌≡◌};
ghost use Rattle.model.specs.Connection.{with_timer};
ghost use Rattle.model.specs.Events.{shared_timeout, on_loss_detection_timeout};
ghost use Rattle.connection.specs.View.{connection_of, state_by, Does};
ghost use Rattle.timeout.specs.Claim.{timeout_at, timeout_words};

use crate::loss::loss_timeout;
use crate::probe::probe_timeout;
use arith::refusal::Refusal;
use arith::time::Moment;
use connection::parts::refused;
use connection::{Answer, State};
use estimate::timer::loss_time_and_space;
use front::clock::on_clock;
use model::{Congestion, HandshakeStatus, OnLossDetectionTimeoutOutcome, Shared};
use records::memory::Words;

mod loss;
mod probe;

// What the spaces share after a timeout at time, with this PTO count, these bytes in flight, this controller and this timer.
fn shared_after(
    s: Shared,
    time: Moment,
    count: u64,
    bytes: u64,
    g: Congestion,
    timer: Option<Moment>,
) -> Shared
    ensures { result ≡ with_timer timer (shared_timeout time count bytes g s) }
{
    Shared {
        clock: time,
        loss_timer: timer,
        pto_count: count,
        bytes_in_flight: bytes,
        congestion: g,
        ..s
    }
}

// The loss detection timer runs out: losses if a loss time stands, else probes. Refusals 1, 6 (a queue) and 7. 01 Timer and PTO (000); 000 on_loss_detection_timeout
pub fn on_loss_detection_timeout(
    m: &mut Words,
    s: State,
    time: Moment,
    status: HandshakeStatus,
) -> Answer<OnLossDetectionTimeoutOutcome>
    ensures { Does (on_loss_detection_timeout time status (connection_of m.old s)) result.outcome m.old m.new s result.state (state_by s (timeout_at time status s) 0) (timeout_words m.old time status s) }
{
    if !on_clock(s.shared.clock, time) {
        return refused(s, Refusal::Clock);
    }
    let earliest = loss_time_and_space(s.initial.epoch, s.handshake.epoch, s.application.epoch);
    match earliest.time {
        Some(_) => loss_timeout(m, s, time, earliest.space, status),
        None => probe_timeout(m, s, time, status),
    }
}
