// A packet is sent. 01 Timer and PTO (000); 000 on_packet_sent.
ghost use Rattle.std.specs.Prelude.{◌≡◌, ◌+◌, ◌%◌, ◌≤◌, ltb};
ghost use Rattle.arith.specs.Whole.{sum_of};
ghost use Rattle.model.specs.Numbers.{capacity};
ghost use Rattle.model.specs.Events.{is_newer, epoch_sent, shared_sent, on_packet_sent};
ghost use Rattle.connection.specs.View.{count, connection_of, normal_of, space_state_at, with_space_state, state_by, Does};
ghost use Rattle.connection.specs.Steps.{sent_space, run_of, sent_both, send_state};
ghost use Rattle.connection.specs.Answers.{outcome_says, sent_words};

use crate::parts::{in_time, normal, refused, space_at, timer, with_space, with_timer};
use crate::{Answer, Normal, SpaceState, State};
use arith::refusal::Refusal;
use arith::time::{Moment, add_up};
use front::packet::{is_newer, is_packet};
use model::{Epoch, HandshakeStatus, Packet, Shared};
use records::memory::{CAPACITY, Words, full, held, store_record};

// The run of packets that elicit no ack. 01 Timer and PTO (000)
#[tactic(auto, unfolding(crate::specs::Steps::run_of))]
fn run_after(s: State, p: Packet) -> Result<u64, Refusal>
    ensures { result ≡ run_of p.ack_eliciting s.shared.outstanding_non_ack_eliciting }
{
    if p.ack_eliciting {
        return Ok(0);
    }
    add_up(s.shared.outstanding_non_ack_eliciting, 1)
}

// How many packets space n has in flight, with one more.
#[tactic(auto, unfolding(arith::specs::Whole::sum_of))]
fn in_flight_after(s: State, n: u64) -> Result<u64, Refusal>
    ensures { result ≡ sum_of (space_state_at n s).epoch.in_flight_count 1 }
{
    add_up(space_at(s, n).epoch.in_flight_count, 1)
}

// The bytes in flight, with the packet's.
#[tactic(auto, unfolding(arith::specs::Whole::sum_of))]
fn bytes_after(s: State, p: Packet) -> Result<u64, Refusal>
    ensures { result ≡ sum_of s.shared.bytes_in_flight p.size }
{
    add_up(s.shared.bytes_in_flight, p.size)
}

// What the space keeps beside its records. 000 on_packet_sent
fn epoch_sent(e: Epoch, time: Moment, p: Packet, in_flight: u64) -> Epoch
    ensures { result ≡ epoch_sent time p in_flight e }
{
    let elicits_in_flight = p.in_flight && p.ack_eliciting;
    Epoch {
        time_of_last_ack_eliciting_packet: if elicits_in_flight {
            Some(time)
        } else {
            e.time_of_last_ack_eliciting_packet
        },
        in_flight_count: in_flight,
        largest_sent_packet: Some(p.number),
        ..e
    }
}

// The space with one more record.
#[tactic(auto, unfolding(crate::specs::Steps::sent_space))]
fn space_sent(q: Normal, time: Moment, p: Packet, in_flight: u64) -> SpaceState
    ensures { result ≡ sent_space time p in_flight q.space }
{
    SpaceState {
        len: q.space.len + 1,
        epoch: epoch_sent(q.space.epoch, time, p, in_flight),
        ..q.space
    }
}

// What the spaces share, with the clock at time. 000 on_packet_sent
fn shared_sent(s: Shared, time: Moment, run: u64, bytes: u64) -> Shared
    ensures { result ≡ shared_sent time run bytes s }
{
    Shared {
        clock: time,
        bytes_in_flight: bytes,
        outstanding_non_ack_eliciting: run,
        ..s
    }
}

// The state with the packet counted, and with its timer as it was. Out of line, it would hand the whole state through memory once more.
#[inline(always)]
#[tactic(auto, unfolding(crate::specs::View::with_space_state))]
fn counted(s: State, time: Moment, n: u64, p: Packet, run: u64, in_flight: u64, bytes: u64) -> State
    ensures { result ≡ with_space_state n (sent_space time p in_flight (normal_of (space_state_at n s))) (shared_sent time run bytes s.shared) s }
{
    with_space(
        s,
        n,
        space_sent(normal(space_at(s, n)), time, p, in_flight),
        shared_sent(s.shared, time, run, bytes),
    )
}

// The same for a packet that is not in flight.
#[tactic(auto, unfolding(crate::specs::View::with_space_state))]
fn counted_aside(s: State, time: Moment, n: u64, p: Packet, run: u64) -> State
    ensures { result ≡ with_space_state n (sent_space time p (space_state_at n s).epoch.in_flight_count (normal_of (space_state_at n s))) (shared_sent time run s.shared.bytes_in_flight s.shared) s }
{
    counted(
        s,
        time,
        n,
        p,
        run,
        space_at(s, n).epoch.in_flight_count,
        s.shared.bytes_in_flight,
    )
}

// A packet that is in flight is counted as such and sets the timer. 000 on_packet_sent
#[tactic(auto, unfolding(crate::specs::Steps::sent_both))]
fn send_both(
    s: State,
    time: Moment,
    n: u64,
    p: Packet,
    status: HandshakeStatus,
    run: u64,
) -> Result<State, Refusal>
    ensures { result ≡ sent_both time n p status run s }
{
    if !p.in_flight {
        return Ok(counted_aside(s, time, n, p, run));
    }
    let in_flight = in_flight_after(s, n)?;
    let bytes = bytes_after(s, p)?;
    let after = counted(s, time, n, p, run, in_flight, bytes);
    let t = timer(after, time, status)?;
    Ok(with_timer(after, t))
}

// Whether the packet's number is above the last sent in space n.
#[tactic(auto, unfolding(model::specs::Events::is_newer))]
fn follows(s: State, n: u64, p: Packet) -> bool
    ensures { result ≡ is_newer (space_state_at n s).epoch.largest_sent_packet p.number }
{
    is_newer(space_at(s, n).epoch.largest_sent_packet, p.number)
}

// Whether space n has room for one more record. Refusal 6
fn has_room(s: State, n: u64) -> bool
    ensures { result ≡ ltb (count (space_state_at n s).len) capacity }
{
    held(space_at(s, n).len) < CAPACITY
}

// The refusals of a send, top down. 01 The stage numbers
#[tactic(auto, unfolding(crate::specs::Steps::send_state))]
fn send(
    s: State,
    time: Moment,
    n: u64,
    p: Packet,
    status: HandshakeStatus,
) -> Result<State, Refusal>
    ensures { result ≡ send_state time n p status s }
{
    if !in_time(s, time) {
        return Err(Refusal::Clock);
    }
    if !is_packet(n, p) {
        return Err(Refusal::Domain);
    }
    if !follows(s, n, p) {
        return Err(Refusal::Stale);
    }
    if !has_room(s, n) {
        return Err(Refusal::Full);
    }
    let run = run_after(s, p)?;
    send_both(s, time, n, p, status, run)
}

// The slot behind the records of space n.
#[tactic(auto, unfolding(crate::specs::View::space_state_at))]
fn next_slot(s: State, n: u64) -> usize
    ensures { result ≡ (space_state_at n s).head % capacity + count (space_state_at n s).len }
{
    let q = space_at(s, n);
    q.head % CAPACITY + held(q.len)
}

// A packet is sent at a moment; its record takes the slot behind the others.
// Refusals 1, 2, 3, 6 (records) and 7. 01 Timer and PTO (000); 000 on_packet_sent
pub fn on_packet_sent(
    m: &mut Words,
    s: State,
    time: Moment,
    n: u64,
    p: Packet,
    status: HandshakeStatus,
) -> Answer<()>
    ensures { Does (on_packet_sent time n p status (connection_of m.old s)) (outcome_says result.outcome) m.old m.new s result.state (state_by s n 1) (λ _. sent_words m.old time n p s) }
{
    full(*m);
    let slot = next_slot(s, n);
    match send(s, time, n, p, status) {
        Ok(t) => {
            store_record(m, n, slot, time, p);
            Answer {
                outcome: Ok(()),
                state: t,
            }
        }
        Err(k) => refused(s, k),
    }
}
