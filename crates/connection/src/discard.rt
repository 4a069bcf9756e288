// A space is discarded with its keys. 01 Timer and PTO (000); RFC 9002 section 6.4.
ghost use Rattle.std.specs.Prelude.{◌≡◌, ◌-◌, ◌%◌};
ghost use Rattle.arith.specs.Whole.{within};
ghost use Rattle.model.specs.Numbers.{capacity};
ghost use Rattle.model.specs.Connection.{outstanding};
ghost use Rattle.model.specs.Events.{shared_timeout, on_space_discarded};
ghost use Rattle.records.specs.View.{records_of};
ghost use Rattle.connection.specs.View.{count, connection_of, space_state_at, with_space_state, state_by, Does};
ghost use Rattle.connection.specs.Steps.{empty_space, discard_by, timed_state};
ghost use Rattle.connection.specs.Answers.{outcome_says, settled_by};

use crate::parts::{in_time, refused, space_at, timer, with_space, with_timer};
use crate::{Answer, SpaceState, State};
use arith::refusal::Refusal;
use arith::time::Moment;
use model::{Epoch, HandshakeStatus, Shared};
use records::memory::{CAPACITY, Words, held};
use records::scan::outstanding_bytes;

// The space with nothing in it; its largest acked and largest sent stay.
#[tactic(auto, unfolding(crate::specs::Steps::empty_space))]
fn emptied(p: SpaceState) -> SpaceState
    ensures { result ≡ empty_space p }
{
    SpaceState {
        head: (p.head % CAPACITY + held(p.len)) % CAPACITY,
        len: 0,
        acked: 0,
        lost_ack: 0,
        lost_pto: 0,
        epoch: Epoch {
            time_of_last_ack_eliciting_packet: None,
            loss_time: None,
            loss_probes: 0,
            in_flight_count: 0,
            ..p.epoch
        },
    }
}

// What the spaces share, less bytes in flight and with the clock at time.
fn shared_less(s: Shared, time: Moment, bytes: u64) -> Shared
    ensures { result ≡ shared_timeout time s.pto_count (s.bytes_in_flight - bytes) s.congestion s }
{
    Shared {
        clock: time,
        bytes_in_flight: s.bytes_in_flight.saturating_sub(bytes),
        ..s
    }
}

// The state without space n and the bytes that it had in flight, with its timer as it was.
#[tactic(auto, unfolding(crate::specs::View::with_space_state))]
fn discarded(s: State, time: Moment, n: u64, bytes: u64) -> State
    ensures { result ≡ with_space_state n (empty_space (space_state_at n s)) (shared_timeout time s.shared.pto_count (s.shared.bytes_in_flight - bytes) s.shared.congestion s.shared) s }
{
    with_space(
        s,
        n,
        emptied(space_at(s, n)),
        shared_less(s.shared, time, bytes),
    )
}

// The bytes that space n has in flight.
#[tactic(auto, unfolding(arith::specs::Whole::within))]
fn bytes_out(m: &Words, s: State, n: u64) -> Result<u64, Refusal>
    ensures { result ≡ within (outstanding (records_of m.now n ((space_state_at n s).head % capacity) (count (space_state_at n s).len))) }
{
    let p = space_at(s, n);
    outstanding_bytes(m, n, p.head, p.len)
}

// The answer of a discard that leaves such a state, its timer set anew; or the state before, where that refuses.
#[tactic(auto, unfolding(crate::specs::Steps::timed_state))]
fn armed(s: State, after: State, time: Moment, status: HandshakeStatus) -> Answer<()>
    ensures { result ≡ settled_by s (timed_state time status after) }
{
    match timer(after, time, status) {
        Ok(t) => Answer {
            outcome: Ok(()),
            state: with_timer(after, t),
        },
        Err(why) => refused(s, why),
    }
}

// What a discard comes to. What turns it down is answered at once: a result for all of it would have its room cleared before the first test. Refusals 1, 2 and 7
#[tactic(auto, unfolding(crate::specs::Steps::discard_by, crate::specs::Steps::discard_state))]
fn discard(m: &Words, s: State, time: Moment, n: u64, status: HandshakeStatus) -> Answer<()>
    ensures { result ≡ settled_by s (discard_by time n status (within (outstanding (records_of m.now n ((space_state_at n s).head % capacity) (count (space_state_at n s).len)))) s) }
{
    if !in_time(s, time) {
        return refused(s, Refusal::Clock);
    }
    if 3 <= n {
        return refused(s, Refusal::Domain);
    }
    match bytes_out(m, s, n) {
        Ok(bytes) => armed(s, discarded(s, time, n, bytes), time, status),
        Err(why) => refused(s, why),
    }
}

// Space n's records and queues are gone. Refusals 1, 2 and 7. 01 Timer and PTO (000); 000 on_pkt_num_space_discarded
pub fn on_pkt_num_space_discarded(
    m: &Words,
    s: State,
    time: Moment,
    n: u64,
    status: HandshakeStatus,
) -> Answer<()>
    ensures { Does (on_space_discarded time n status (connection_of m.now s)) (outcome_says result.outcome) m.now m.now s result.state (state_by s n 0) (λ _. m.now) }
{
    discard(m, s, time, n, status)
}
