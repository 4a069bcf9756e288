// Handles are taken from a space's queues, last in first out, and a ping takes a probe. 01 Timer and PTO (000).
ghost use Rattle.std.specs.Prelude.{◌≡◌, List, ℕ, ◌-◌};
ghost use Rattle.model.specs.Events.{next_acked_frame, next_lost_frame, ping_sent};
ghost use Rattle.connection.specs.View.{connection_of, with_space_state, state_by, Does};
ghost use Rattle.connection.specs.Steps.{with_counts};
ghost use Rattle.connection.specs.Answers.{outcome_says};

use crate::parts::{normal, refused, space_at, with_probes, with_space};
use crate::{Answer, SpaceState, State};
use arith::refusal::Refusal;
use records::memory::{Queue, Words};
use records::queue::newest_handle;

// The state whose space n, which is p, holds so many handles in its queues.
#[tactic(auto, unfolding(crate::specs::Steps::with_counts))]
fn with_counts(
    s: State,
    n: u64,
    p: SpaceState,
    acked: usize,
    lost_ack: usize,
    lost_pto: usize,
) -> State
    ensures { result ≡ with_space_state n (with_counts acked lost_ack lost_pto p) s.shared s }
{
    let q = SpaceState {
        acked,
        lost_ack,
        lost_pto,
        ..p
    };
    with_space(s, n, q, s.shared)
}

// The handle of a packet that was acked, or 0. Refusal 2: the space. 01 Timer and PTO (000); 000 next_acked_frame
pub fn next_acked_frame(m: &Words, s: State, n: u64) -> Answer<u64>
    ensures { Does (next_acked_frame n (connection_of m.now s)) result.outcome m.now m.now s result.state (state_by s n 0) (λ _. m.now) }
{
    if 3 <= n {
        return refused(s, Refusal::Domain);
    }
    let p = normal(space_at(s, n)).space;
    let handle = newest_handle(m, n, u64::from(Queue::AckedFrames), p.acked);
    Answer {
        outcome: Ok(handle),
        state: with_counts(s, n, p, p.acked.saturating_sub(1), p.lost_ack, p.lost_pto),
    }
}

// The handle of a packet to be sent again, or 0: those lost by an ACK go before those of a PTO.
// Refusal 2: the space. 01 Timer and PTO (000); 000 next_lost_frame
pub fn next_lost_frame(m: &Words, s: State, n: u64) -> Answer<u64>
    ensures { Does (next_lost_frame n (connection_of m.now s)) result.outcome m.now m.now s result.state (state_by s n 0) (λ _. m.now) }
{
    if 3 <= n {
        return refused(s, Refusal::Domain);
    }
    let p = normal(space_at(s, n)).space;
    if p.lost_ack == 0 {
        let handle = newest_handle(m, n, u64::from(Queue::LostFramesPto), p.lost_pto);
        return Answer {
            outcome: Ok(handle),
            state: with_counts(s, n, p, p.acked, p.lost_ack, p.lost_pto.saturating_sub(1)),
        };
    }
    let handle = newest_handle(m, n, u64::from(Queue::LostFramesAck), p.lost_ack);
    Answer {
        outcome: Ok(handle),
        state: with_counts(s, n, p, p.acked, p.lost_ack.saturating_sub(1), p.lost_pto),
    }
}

// A ping takes one probe. Refusal 2: the space. 01 Timer and PTO (000); 000 ping_sent
pub fn ping_sent(s: State, n: u64) -> Answer<()>
    ensures { (m : List ℕ) → Does (ping_sent n (connection_of m s)) (outcome_says result.outcome) m m s result.state (state_by s n 0) (λ _. m) }
{
    if 3 <= n {
        return refused(s, Refusal::Domain);
    }
    let p = normal(space_at(s, n)).space;
    let q = with_probes(p, p.epoch.loss_probes.saturating_sub(1), p.lost_pto);
    Answer {
        outcome: Ok(()),
        state: with_space(s, n, q, s.shared),
    }
}
