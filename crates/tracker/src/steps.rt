// The steps of an acknowledgement that read no record. 01 Acknowledgement (000) 3 to 6
ghost use Rattle.std.specs.Prelude.{◌≡◌, ◌-◌, ◌≤◌};
ghost use Rattle.model.specs.Ack.{reordered};
ghost use Rattle.model.specs.Connection.{with_timer};
ghost use Rattle.model.specs.Events.{epoch_acked, epoch_detected, stored_largest, shared_acked, outcome};
ghost use Rattle.tracker.specs.Plan.{kept_space, sampled_by, space_planned, shared_nothing};

use crate::Losses;
use crate::detect::or_zero;
use arith::refusal::Refusal;
use arith::round::TimeThreshold;
use arith::time::{Moment, Span, add_up, since};
use connection::{Normal, SpaceState};
use estimate::rtt::update_rtt;
use marks::{LostTally, Tally};
use model::{
    Congestion, Epoch, HandshakeStatus, OnAckReceivedOutcome, Reordering, Rtt, Sent, Shared,
};
use records::memory::CAPACITY;

// The packet threshold is at most 20. 01 Acknowledgement (000) 3
const MAX_PACKET_THRESHOLD: u64 = 20;

// The space once the records before place keep have left.
pub(crate) fn kept_space(
    q: Normal,
    keep: usize,
    acked: u64,
    lost_ack: u64,
    epoch: Epoch,
) -> SpaceState
    requires { keep ≤ q.space.len }
    ensures { result ≡ kept_space q.space keep acked lost_ack epoch }
{
    SpaceState {
        head: (q.space.head + keep) % CAPACITY,
        len: q.space.len - keep,
        acked: acked as usize,
        lost_ack: lost_ack as usize,
        lost_pto: q.space.lost_pto,
        epoch,
    }
}

// The space's values after step 1, with the largest acked.
pub fn epoch_acked(e: Epoch, in_flight: u64, largest: Option<u64>) -> Epoch
    ensures { result ≡ epoch_acked in_flight largest e }
{
    Epoch {
        largest_acked_packet: largest,
        in_flight_count: in_flight,
        ..e
    }
}

// And after a detection.
pub fn epoch_detected(e: Epoch, in_flight: u64, loss_time: Option<Moment>) -> Epoch
    ensures { result ≡ epoch_detected in_flight loss_time e }
{
    Epoch {
        loss_time,
        in_flight_count: in_flight,
        ..e
    }
}

// Any spurious: packet threshold = max(old, min(distance, 20)), time threshold 5/4. Refusal 7: the spurious count. 01 Acknowledgement (000) 3
#[tactic(auto, unfolding(model::specs::Ack::reordered))]
pub fn reorder(distance: Option<u64>, spurious: u64, o: Reordering) -> Result<Reordering, Refusal>
    ensures { result ≡ reordered distance spurious o }
{
    let count = add_up(o.lost_spurious_count, spurious)?;
    let counted = Reordering {
        lost_spurious_count: count,
        ..o
    };
    Ok(match distance {
        None => counted,
        Some(d) => Reordering {
            pkt_thresh: o.pkt_thresh.max(d.min(MAX_PACKET_THRESHOLD)),
            time_thresh: TimeThreshold::FiveFourths,
            ..counted
        },
    })
}

// Stored largest = max(old or 0, largest newly acked). 01 Acknowledgement (000) 5
pub fn stored_largest(old: Option<u64>, last: Sent) -> u64
    ensures { result ≡ stored_largest old last }
{
    or_zero(old).max(last.number)
}

// A sample only if that one is newly acked and some newly acked packet is eliciting. 01 Acknowledgement (000) 5
#[tactic(auto, unfolding(crate::specs::Plan::sampled_by))]
pub fn sampled_rtt(
    time: Moment,
    delay: Span,
    status: HandshakeStatus,
    old: Option<u64>,
    last: Sent,
    eliciting: bool,
    rtt: Rtt,
) -> Result<Rtt, Refusal>
    ensures { result ≡ sampled_by time delay status old last eliciting rtt }
{
    if last.number == stored_largest(old, last) && eliciting {
        update_rtt(rtt, since(time, last.time_sent), delay, status.completed)
    } else {
        Ok(rtt)
    }
}

// The bytes in flight without the lost and the acked. 01 Lost or not, Acknowledgement (000) 6
pub fn bytes_left(bytes: u64, l: LostTally, acked: u64) -> u64
    ensures { result ≡ bytes - l.bytes - l.probe_bytes - acked }
{
    bytes
        .saturating_sub(l.bytes)
        .saturating_sub(l.probe_bytes)
        .saturating_sub(acked)
}

// What is shared, where nothing is newly acked: timer and PTO count stay. 01 Acknowledgement (000) 4
pub fn shared_nothing(s: Shared, time: Moment, o: Reordering, g: Congestion) -> Shared
    ensures { result ≡ shared_nothing time o g s }
{
    Shared {
        clock: time,
        reordering: o,
        congestion: g,
        ..s
    }
}

// What is shared after step 6, but for the timer: PTO count 0.
pub fn shared_acked(
    s: Shared,
    time: Moment,
    rtt: Rtt,
    o: Reordering,
    bytes: u64,
    g: Congestion,
) -> Shared
    ensures { result ≡ shared_acked time rtt o bytes g s }
{
    Shared {
        clock: time,
        pto_count: 0,
        rtt,
        reordering: o,
        bytes_in_flight: bytes,
        congestion: g,
        ..s
    }
}

// With the timer.
pub fn shared_timed(s: Shared, timer: Option<Moment>) -> Shared
    ensures { result ≡ with_timer timer s }
{
    Shared {
        loss_timer: timer,
        ..s
    }
}

// The space after step 6.
pub(crate) fn space_planned(q: Normal, t: Tally, largest: Option<u64>, l: Losses) -> SpaceState
    requires { l.keep ≤ q.space.len }
    ensures { result ≡ space_planned q.space t largest l }
{
    let epoch = epoch_detected(
        epoch_acked(q.space.epoch, t.in_flight, largest),
        l.tally.in_flight,
        l.loss_time,
    );
    kept_space(q, l.keep, t.queued, l.tally.queued, epoch)
}

// What the host learns.
pub fn outcome_of(packets: u64, bytes: u64, acked: u64, spurious: u64) -> OnAckReceivedOutcome
    ensures { result ≡ outcome packets bytes acked spurious }
{
    OnAckReceivedOutcome {
        lost_packets: packets,
        lost_bytes: bytes,
        acked_bytes: acked,
        spurious_losses: spurious,
    }
}
