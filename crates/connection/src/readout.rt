// What can be read of a connection, as 000 offers it and 01 keeps it. A number past 1 names space 2, Application, as in space_at.
#![tactic(auto, using(crate::proofs::Views::epoch_view, crate::proofs::Views::lost_view), unfolding(crate::specs::View::connection_of, crate::specs::Readouts::cwnd_available_of))]

ghost use Rattle.std.specs.Prelude.{◌≡◌, List, ℕ};
ghost use Rattle.connection.specs.View.{connection_of};
ghost use Rattle.connection.specs.Readouts as readouts;

use crate::State;
use crate::parts::space_at;
use arith::refusal::Refusal;
use arith::time::{Moment, Span};

// The congestion window, in bytes. 000 cwnd
pub fn cwnd(s: State) -> u64
    ensures { (m : List ℕ) → result ≡ readouts.cwnd_of (connection_of m s) }
{
    s.shared.congestion.congestion_window
}

// The slow start threshold, in bytes; 2^64-1 before any loss. 01 CUBIC (001)
pub fn ssthresh(s: State) -> u64
    ensures { (m : List ℕ) → result ≡ readouts.ssthresh_of (connection_of m s) }
{
    s.shared.congestion.ssthresh
}

// 000 bytes_in_flight
pub fn bytes_in_flight(s: State) -> u64
    ensures { (m : List ℕ) → result ≡ readouts.bytes_in_flight_of (connection_of m s) }
{
    s.shared.bytes_in_flight
}

// Bytes that may be sent; no bound while any space has probes. 01 Timer and PTO (000); 000 cwnd_available
pub fn cwnd_available(s: State) -> u64
    ensures { (m : List ℕ) → result ≡ readouts.cwnd_available_of (connection_of m s) }
{
    estimate::timer::cwnd_available(
        s.initial.epoch.loss_probes,
        s.handshake.epoch.loss_probes,
        s.application.epoch.loss_probes,
        s.shared.congestion.congestion_window,
        s.shared.bytes_in_flight,
    )
}

// The present size, which size changes move. 000 max_datagram_size
pub fn max_datagram_size(s: State) -> u64
    ensures { (m : List ℕ) → result ≡ readouts.max_datagram_size_of (connection_of m s) }
{
    s.shared.max_datagram_size
}

// The smoothed round trip. 000 rtt
pub fn rtt(s: State) -> Span
    ensures { (m : List ℕ) → result ≡ readouts.rtt_of (connection_of m s) }
{
    s.shared.rtt.smoothed_rtt
}

// The latest sample, 0 before one. 01 RTT (002)
pub fn latest_rtt(s: State) -> Span
    ensures { (m : List ℕ) → result ≡ readouts.latest_rtt_of (connection_of m s) }
{
    s.shared.rtt.latest_rtt
}

// 000 rttvar
pub fn rttvar(s: State) -> Span
    ensures { (m : List ℕ) → result ≡ readouts.rttvar_of (connection_of m s) }
{
    s.shared.rtt.rttvar
}

// The smallest sample. 000 min_rtt
pub fn min_rtt(s: State) -> Option<Span>
    ensures { (m : List ℕ) → result ≡ readouts.min_rtt_of (connection_of m s) }
{
    s.shared
        .rtt
        .has_first_rtt_sample
        .then_some(s.shared.rtt.min_rtt)
}

// The largest sample. 000 max_rtt
pub fn max_rtt(s: State) -> Option<Span>
    ensures { (m : List ℕ) → result ≡ readouts.max_rtt_of (connection_of m s) }
{
    s.shared
        .rtt
        .has_first_rtt_sample
        .then_some(s.shared.rtt.max_rtt)
}

// The PTO of the present estimates, without backoff; past 2^53-1 too long. 01 Timer and PTO (000); 000 pto
pub fn pto(s: State) -> Result<Span, Refusal>
    ensures { (m : List ℕ) → result ≡ readouts.pto_read_of (connection_of m s) }
{
    estimate::timer::pto(s.shared.rtt)
}

// 000 loss_detection_timer
pub fn loss_detection_timer(s: State) -> Option<Moment>
    ensures { (m : List ℕ) → result ≡ readouts.loss_detection_timer_of (connection_of m s) }
{
    s.shared.loss_timer
}

// 000 pto_count
pub fn pto_count(s: State) -> u64
    ensures { (m : List ℕ) → result ≡ readouts.pto_count_of (connection_of m s) }
{
    s.shared.pto_count
}

// Packets lost so far. 000 lost_count
pub fn lost_count(s: State) -> u64
    ensures { (m : List ℕ) → result ≡ readouts.lost_count_of (connection_of m s) }
{
    s.shared.congestion.lost_count
}

// Of these, so many were acked after all. 000 lost_spurious_count
pub fn lost_spurious_count(s: State) -> u64
    ensures { (m : List ℕ) → result ≡ readouts.lost_spurious_count_of (connection_of m s) }
{
    s.shared.reordering.lost_spurious_count
}

// 000 pkt_thresh
pub fn pkt_thresh(s: State) -> u64
    ensures { (m : List ℕ) → result ≡ readouts.pkt_thresh_of (connection_of m s) }
{
    s.shared.reordering.pkt_thresh
}

// 000 loss_probes
pub fn loss_probes(s: State, n: u64) -> u64
    ensures { (m : List ℕ) → result ≡ readouts.loss_probes_of n (connection_of m s) }
{
    space_at(s, n).epoch.loss_probes
}

// 000 in_flight_count
pub fn in_flight_count(s: State, n: u64) -> u64
    ensures { (m : List ℕ) → result ≡ readouts.in_flight_count_of n (connection_of m s) }
{
    space_at(s, n).epoch.in_flight_count
}

// 000 get_largest_acked_on_epoch
pub fn get_largest_acked_on_epoch(s: State, n: u64) -> Option<u64>
    ensures { (m : List ℕ) → result ≡ readouts.largest_acked_of n (connection_of m s) }
{
    space_at(s, n).epoch.largest_acked_packet
}

// Whether the next packet is to elicit an ack. 01 Timer and PTO (000); 000 should_elicit_ack
pub fn should_elicit_ack(s: State, n: u64) -> bool
    ensures { (m : List ℕ) → result ≡ readouts.should_elicit_ack_of n (connection_of m s) }
{
    estimate::timer::should_elicit_ack(
        space_at(s, n).epoch.loss_probes,
        s.shared.outstanding_non_ack_eliciting,
    )
}

// Whether a handle of a lost packet waits. 000 has_lost_frames
pub fn has_lost_frames(s: State, n: u64) -> bool
    ensures { (m : List ℕ) → result ≡ readouts.has_lost_frames_of n (connection_of m s) }
{
    let p = space_at(s, n);
    0 < p.lost_ack || 0 < p.lost_pto
}
