// A connection's values as plain numbers, for programs in other languages: any bytes are a valid record. What they stand for is said in specs/.
// Made of numbers alone, in the order of their fields; a moment or a packet number that may be missing has a word beside it that says so.

#![tactic(auto)]

pub mod opened;
pub mod packed;

// A moment in nanoseconds, or none where `set` is 0: C has no Option.
#[repr(C)]
#[derive(Clone, Copy)]
pub struct TimeValue {
    pub set: u64,
    pub ns: u64,
}

// A packet number, or none where `set` is 0: C has no Option.
#[repr(C)]
#[derive(Clone, Copy)]
pub struct NumberValue {
    pub set: u64,
    pub number: u64,
}

// A space: where its records and queues lie in the words, and what it keeps beside them.
#[repr(C)]
#[derive(Clone, Copy)]
pub struct SpaceValues {
    pub head: u64,
    pub len: u64,
    pub acked: u64,
    pub lost_ack: u64,
    pub lost_pto: u64,
    pub time_of_last_ack_eliciting_packet: TimeValue,
    pub largest_acked_packet: NumberValue,
    pub loss_time: TimeValue,
    pub loss_probes: u64,
    pub in_flight_count: u64,
    pub largest_sent_packet: NumberValue,
}

// The round-trip estimates, in nanoseconds; no sample yet where `has_first_rtt_sample` is 0.
#[repr(C)]
#[derive(Clone, Copy)]
pub struct RttValues {
    pub latest_rtt: u64,
    pub min_rtt: u64,
    pub max_rtt: u64,
    pub smoothed_rtt: u64,
    pub rttvar: u64,
    pub has_first_rtt_sample: u64,
    pub max_ack_delay: u64,
}

// CUBIC's own values.
#[repr(C)]
#[derive(Clone, Copy)]
pub struct CubicValues {
    pub k: f64,
    pub w_max: f64,
    pub w_est: f64,
    pub alpha_aimd: f64,
    pub cwnd_inc: u64,
}

// What a rollback restores.
#[repr(C)]
#[derive(Clone, Copy)]
pub struct PriorValues {
    pub congestion_window: u64,
    pub ssthresh: u64,
    pub w_max: f64,
    pub k: f64,
    pub epoch_start: TimeValue,
    pub lost_count: u64,
}

// The congestion controller.
#[repr(C)]
#[derive(Clone, Copy)]
pub struct CongestionValues {
    pub congestion_window: u64,
    pub ssthresh: u64,
    pub bytes_acked_sl: u64,
    pub congestion_recovery_start_time: TimeValue,
    pub lost_count: u64,
    pub cubic: CubicValues,
    pub prior: PriorValues,
    pub max_datagram_size: u64,
    pub initial_window_packets: u64,
}

// A connection but for its words. `seal` says that it was begun; `time_thresh` is 9/8 where it is 0, else 5/4.
#[repr(C)]
#[derive(Clone, Copy)]
pub struct Values {
    pub seal: u64,
    pub initial: SpaceValues,
    pub handshake: SpaceValues,
    pub application: SpaceValues,
    pub clock: u64,
    pub loss_timer: TimeValue,
    pub pto_count: u64,
    pub rtt: RttValues,
    pub pkt_thresh: u64,
    pub time_thresh: u64,
    pub lost_spurious_count: u64,
    pub bytes_in_flight: u64,
    pub max_datagram_size: u64,
    pub outstanding_non_ack_eliciting: u64,
    pub congestion: CongestionValues,
}
