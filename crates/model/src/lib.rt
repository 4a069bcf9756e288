// The values that the definitions and the code share, and how plain numbers encode them. What is done with them is said in specs/ and done in the crates above.
// Names follow the Rust's where a reader will hold the two side by side.
#![tactic(auto)]

pub mod coded;

use arith::round::TimeThreshold;
use arith::time::{Moment, Span};

// 2^62: packet numbers are below it, and ranges end there at the latest. 01 The stage numbers
pub const NUMBERS: u64 = 1 << 62;

// What a connection is set up with.
#[derive(Clone, Copy)]
pub struct Settings {
    // bytes, 1,200 to 65,527
    pub max_datagram_size: u64,
    // packets, 2 to 100
    pub initial_window_packets: u64,
    // 1 ms to 10 s
    pub initial_rtt: Span,
    // 0 to 16,383 ms
    pub max_ack_delay: Span,
}

// What the host knows of the handshake, handed over with an event.
#[derive(Clone, Copy)]
pub struct HandshakeStatus {
    pub has_handshake_keys: bool,
    pub peer_verified_address: bool,
    pub completed: bool,
}

// One packet as it was sent, and what became of it.
#[derive(Clone, Copy)]
pub struct Sent {
    pub number: u64,
    pub time_sent: Moment,
    // bytes
    pub size: u64,
    pub ack_eliciting: bool,
    pub in_flight: bool,
    pub has_data: bool,
    pub is_pmtud_probe: bool,
    // what the host calls the packet's frames; 0 for none
    pub handle: u64,
    pub acked: bool,
    // set when it was declared lost, and kept if it is acked after all
    pub time_lost: Option<Moment>,
}

// A packet as the host hands it over to be sent.
#[derive(Clone, Copy)]
pub struct Packet {
    pub number: u64,
    // bytes
    pub size: u64,
    pub ack_eliciting: bool,
    pub in_flight: bool,
    pub has_data: bool,
    pub is_pmtud_probe: bool,
    pub handle: u64,
}

// The round-trip estimates.
#[derive(Clone, Copy)]
pub struct Rtt {
    pub latest_rtt: Span,
    pub min_rtt: Span,
    pub max_rtt: Span,
    pub smoothed_rtt: Span,
    pub rttvar: Span,
    // no Option round the estimates: before a sample they are the initial RTT, which PTO and the loss delay read
    pub has_first_rtt_sample: bool,
    pub max_ack_delay: Span,
}

// CUBIC's own values: floats, with the bytes that wait to be added to the window.
#[derive(Clone, Copy)]
pub struct Cubic {
    pub k: f64,
    pub w_max: f64,
    pub w_est: f64,
    pub alpha_aimd: f64,
    pub cwnd_inc: u64,
}

// What a rollback restores, as it stood before the latest recovery period began, and the lost count at that moment.
#[derive(Clone, Copy)]
pub struct PriorState {
    pub congestion_window: u64,
    pub ssthresh: u64,
    pub w_max: f64,
    pub k: f64,
    pub epoch_start: Option<Moment>,
    pub lost_count: u64,
}

// The congestion controller.
#[derive(Clone, Copy)]
pub struct Congestion {
    // bytes, at most 2^30
    pub congestion_window: u64,
    pub ssthresh: u64,
    pub bytes_acked_sl: u64,
    pub congestion_recovery_start_time: Option<Moment>,
    pub lost_count: u64,
    pub cubic: Cubic,
    pub prior: PriorState,
    // the size set at the start; a later size change leaves it
    pub max_datagram_size: u64,
    pub initial_window_packets: u64,
}

// What a packet number space keeps beside its records and queues.
#[derive(Clone, Copy)]
pub struct Epoch {
    pub time_of_last_ack_eliciting_packet: Option<Moment>,
    pub largest_acked_packet: Option<u64>,
    pub loss_time: Option<Moment>,
    pub loss_probes: u64,
    pub in_flight_count: u64,
    pub largest_sent_packet: Option<u64>,
}

// How much reordering is borne before a packet is lost, and the spurious losses that taught it.
#[derive(Clone, Copy)]
pub struct Reordering {
    pub pkt_thresh: u64,
    pub time_thresh: TimeThreshold,
    pub lost_spurious_count: u64,
}

// What the connection keeps beside its spaces.
#[derive(Clone, Copy)]
pub struct Shared {
    // the last accepted now
    pub clock: Moment,
    pub loss_timer: Option<Moment>,
    pub pto_count: u64,
    pub rtt: Rtt,
    pub reordering: Reordering,
    // bytes
    pub bytes_in_flight: u64,
    // the present size, which size changes move
    pub max_datagram_size: u64,
    pub outstanding_non_ack_eliciting: u64,
    pub congestion: Congestion,
}

// What one loss detection holds fixed.
#[derive(Clone, Copy)]
pub struct Judge {
    pub now: Moment,
    pub delay: Span,
    pub threshold: u64,
    pub largest: u64,
}

// A time and the space that it is of.
#[derive(Clone, Copy)]
pub struct TimeAndSpace {
    pub time: Option<Moment>,
    pub space: u64,
}

// What the timer goes by.
#[derive(Clone, Copy)]
pub struct TimerFacts {
    pub now: Moment,
    pub status: HandshakeStatus,
    pub rtt: Rtt,
    pub pto_count: u64,
    pub bytes_in_flight: u64,
    pub initial: Epoch,
    pub handshake: Epoch,
    pub application: Epoch,
}

// What an accepted acknowledgement answers.
#[derive(Clone, Copy)]
pub struct OnAckReceivedOutcome {
    pub lost_packets: u64,
    pub lost_bytes: u64,
    pub acked_bytes: u64,
    pub spurious_losses: u64,
}

// What an accepted timeout answers.
#[derive(Clone, Copy)]
pub struct OnLossDetectionTimeoutOutcome {
    pub lost_packets: u64,
    pub lost_bytes: u64,
}
