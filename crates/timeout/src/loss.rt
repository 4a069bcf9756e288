// A timeout with a loss time: losses in its space. 01 Timer and PTO (000), Lost or not; RFC 9002 section 6.1.2
ghost use Rattle.std.specs.Prelude.{◌≡◌, false, ℕ, ◌-◌, ◌≤◌, ◌<◌};
ghost use Rattle.arith.specs.Whole.{limit};
ghost use Rattle.model.specs.Events.{timeout_loss};
ghost use Rattle.marks.specs.Marks.{flagged};
ghost use Rattle.connection.specs.View.{connection_of, with_space_state, state_by, Does};
ghost use Rattle.timeout.specs.Loss.{lost_space, lost_shared, plan_lost, plan_loss};
ghost use Rattle.timeout.specs.Claim.{loss_words};

use crate::shared_after;
use arith::refusal::Refusal;
use arith::time::Moment;
use commit::{Queues, Touched, commit};
use connection::parts::{normal, refused, space_at, timed, with_space};
use connection::{Answer, SpaceState, State};
use model::{Congestion, HandshakeStatus, OnLossDetectionTimeoutOutcome};
use records::memory::{CAPACITY, Words, full};
use tracker::Losses;
use tracker::control::after_losses;
use tracker::detect::plan_all_losses;
use tracker::steps::epoch_detected;

// What a timeout with a loss time has decided: the losses, and the state after it.
#[derive(Clone, Copy)]
pub struct LossStep {
    pub losses: Losses,
    pub state: State,
}

// The space after a detection: the drained have left it, and handles of the lost wait.
fn lost_space(q: SpaceState, l: Losses) -> SpaceState
    ensures { result ≡ lost_space q l }
{
    SpaceState {
        head: (q.head % CAPACITY + l.keep % CAPACITY) % CAPACITY,
        len: q.len.saturating_sub(l.keep),
        lost_ack: l.tally.queued as usize,
        epoch: epoch_detected(q.epoch, l.tally.in_flight, l.loss_time),
        ..q
    }
}

// The state after a detection in space n, which was q, with the timer as it was.
#[tactic(auto, unfolding(connection::specs::View::with_space_state))]
fn lost_state(s: State, time: Moment, n: u64, q: SpaceState, l: Losses, g: Congestion) -> State
    ensures { result ≡ with_space_state n (lost_space q l) (lost_shared time l g s.shared) s }
{
    let shared = s.shared;
    let bytes = shared
        .bytes_in_flight
        .saturating_sub(l.tally.bytes)
        .saturating_sub(l.tally.probe_bytes);
    with_space(
        s,
        n,
        lost_space(q, l),
        shared_after(shared, time, shared.pto_count, bytes, g, shared.loss_timer),
    )
}

// What follows from losses in space n: the congestion event, the lost count, and the timer. Refusal 7. 01 Timer and PTO (000), Lost or not
#[tactic(auto, unfolding(crate::specs::Loss::plan_lost))]
fn plan_lost(
    s: State,
    time: Moment,
    n: u64,
    status: HandshakeStatus,
    l: Losses,
) -> Result<LossStep, Refusal>
    ensures { result ≡ plan_lost time n status l s }
{
    let q = normal(space_at(s, n)).space;
    let g = after_losses(s.shared.congestion, time, l.tally)?;
    let t = timed(lost_state(s, time, n, q, l, g), time, status)?;
    Ok(LossStep {
        losses: l,
        state: t,
    })
}

// What a timeout with a loss time decides; no record is flagged as acked. Refusals 6 and 7. 01 Timer and PTO (000); 000 on_loss_detection_timeout
#[tactic(auto, unfolding(crate::specs::Loss::plan_loss, connection::specs::View::normal_of))]
fn plan_loss(
    m: &Words,
    n: u64,
    flags: &[bool; 256],
    s: State,
    time: Moment,
    status: HandshakeStatus,
) -> Result<LossStep, Refusal>
    ensures { result ≡ plan_loss m.now n flags.now time status s }
{
    let q = space_at(s, n);
    let l = plan_all_losses(
        m,
        n,
        q,
        flags,
        time,
        s.shared.rtt,
        s.shared.reordering,
        q.epoch.largest_acked_packet,
        q.epoch.in_flight_count,
    )?;
    plan_lost(s, time, n, status, l)
}

// No record is flagged: nothing is acked.
fn no_flags() -> [bool; 256]
    ensures { (i : ℕ) → flagged result i ≡ false }
{
    [false; 256]
}

// A timeout with a loss time, whose space is n. Refusals 6 and 7. 01 Timer and PTO (000); 000 on_loss_detection_timeout; RFC 9002 section 6.1.2
pub(crate) fn loss_timeout(
    m: &mut Words,
    s: State,
    time: Moment,
    n: u64,
    status: HandshakeStatus,
) -> Answer<OnLossDetectionTimeoutOutcome>
    requires { (time.0 ≤ limit) × (n < 3) }
    ensures { Does (timeout_loss time n status (connection_of m.old s)) result.outcome m.old m.new s result.state (state_by s n 0) (loss_words m.old n s) }
{
    full(*m);
    let flags = no_flags();
    match plan_loss(m, n, &flags, s, time, status) {
        Ok(d) => {
            let l = d.losses;
            let q = normal(space_at(s, n)).space;
            commit(
                m,
                n,
                q.head,
                q.len,
                &flags,
                0,
                Touched {
                    from: 0,
                    stop: l.stop,
                    keep: l.keep,
                },
                time,
                Queues {
                    acked: q.acked,
                    lost: q.lost_ack,
                },
            );
            Answer {
                outcome: Ok(OnLossDetectionTimeoutOutcome {
                    lost_packets: l.tally.packets,
                    lost_bytes: l.tally.bytes,
                }),
                state: d.state,
            }
        }
        Err(k) => refused(s, k),
    }
}
