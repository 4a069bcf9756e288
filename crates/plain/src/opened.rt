// Plain numbers read as a state: any numbers stand for one.
#![tactic(auto, unfolding(crate::specs::Values::to_time, crate::specs::Values::to_number, crate::specs::Values::to_threshold, crate::specs::Values::to_epoch, crate::specs::Values::to_space, crate::specs::Values::to_rtt, crate::specs::Values::to_cubic, crate::specs::Values::to_prior, crate::specs::Values::to_congestion, crate::specs::Values::to_shared, crate::specs::Values::state_of, crate::specs::Values::is_sealed))]

ghost use Rattle.std.specs.Prelude.{◌≡◌};
ghost use Rattle.plain.specs.Values.{to_time, to_number, to_threshold, to_epoch, to_space, to_rtt, to_cubic, to_prior, to_congestion, to_shared, state_of, is_sealed};

use crate::{
    CongestionValues, CubicValues, NumberValue, PriorValues, RttValues, SpaceValues, TimeValue,
    Values,
};
use arith::round::TimeThreshold;
use arith::time::{Moment, Span};
use connection::{SpaceState, State};
use model::{Congestion, Cubic, Epoch, PriorState, Reordering, Rtt, Shared};

// The mark of values that were begun: the bytes SKAVVILE.
pub const SEAL: u64 = 6001962767471955013;

// Whether the values were begun, and not just zeroed or left as they were found.
#[tactic(auto, unfolding(crate::specs::Values::is_sealed))]
pub fn is_sealed(v: Values) -> bool
    ensures { result ≡ is_sealed v }
{
    v.seal == SEAL
}

impl From<TimeValue> for Option<Moment> {
    ghost from_gives = { λ t r. r ≡ to_time t };

    fn from(t: TimeValue) -> Option<Moment> {
        (t.set != 0).then_some(Moment(t.ns))
    }
}

impl From<NumberValue> for Option<u64> {
    ghost from_gives = { λ n r. r ≡ to_number n };

    fn from(n: NumberValue) -> Option<u64> {
        (n.set != 0).then_some(n.number)
    }
}

// 0: 9/8, else 5/4. No From: both types stand in other crates.
#[tactic(auto, unfolding(crate::specs::Values::to_threshold))]
fn threshold_of(n: u64) -> TimeThreshold
    ensures { result ≡ to_threshold n }
{
    match n {
        0 => TimeThreshold::NineEighths,
        _ => TimeThreshold::FiveFourths,
    }
}

// What a space keeps beside its places in the words.
#[tactic(auto, unfolding(crate::specs::Values::to_epoch))]
fn epoch_of(p: SpaceValues) -> Epoch
    ensures { result ≡ to_epoch p }
{
    Epoch {
        time_of_last_ack_eliciting_packet: p.time_of_last_ack_eliciting_packet.into(),
        largest_acked_packet: p.largest_acked_packet.into(),
        loss_time: p.loss_time.into(),
        loss_probes: p.loss_probes,
        in_flight_count: p.in_flight_count,
        largest_sent_packet: p.largest_sent_packet.into(),
    }
}

impl From<SpaceValues> for SpaceState {
    ghost from_gives = { λ p r. r ≡ to_space p };

    fn from(p: SpaceValues) -> SpaceState {
        SpaceState {
            head: p.head as usize,
            len: p.len as usize,
            acked: p.acked as usize,
            lost_ack: p.lost_ack as usize,
            lost_pto: p.lost_pto as usize,
            epoch: epoch_of(p),
        }
    }
}

impl From<RttValues> for Rtt {
    ghost from_gives = { λ v r. r ≡ to_rtt v };

    fn from(v: RttValues) -> Rtt {
        Rtt {
            latest_rtt: Span(v.latest_rtt),
            min_rtt: Span(v.min_rtt),
            max_rtt: Span(v.max_rtt),
            smoothed_rtt: Span(v.smoothed_rtt),
            rttvar: Span(v.rttvar),
            has_first_rtt_sample: v.has_first_rtt_sample != 0,
            max_ack_delay: Span(v.max_ack_delay),
        }
    }
}

impl From<CubicValues> for Cubic {
    ghost from_gives = { λ c r. r ≡ to_cubic c };

    fn from(c: CubicValues) -> Cubic {
        Cubic {
            k: c.k,
            w_max: c.w_max,
            w_est: c.w_est,
            alpha_aimd: c.alpha_aimd,
            cwnd_inc: c.cwnd_inc,
        }
    }
}

impl From<PriorValues> for PriorState {
    ghost from_gives = { λ p r. r ≡ to_prior p };

    fn from(p: PriorValues) -> PriorState {
        PriorState {
            congestion_window: p.congestion_window,
            ssthresh: p.ssthresh,
            w_max: p.w_max,
            k: p.k,
            epoch_start: p.epoch_start.into(),
            lost_count: p.lost_count,
        }
    }
}

impl From<CongestionValues> for Congestion {
    ghost from_gives = { λ g r. r ≡ to_congestion g };

    fn from(g: CongestionValues) -> Congestion {
        Congestion {
            congestion_window: g.congestion_window,
            ssthresh: g.ssthresh,
            bytes_acked_sl: g.bytes_acked_sl,
            congestion_recovery_start_time: g.congestion_recovery_start_time.into(),
            lost_count: g.lost_count,
            cubic: g.cubic.into(),
            prior: g.prior.into(),
            max_datagram_size: g.max_datagram_size,
            initial_window_packets: g.initial_window_packets,
        }
    }
}

impl From<Values> for Shared {
    ghost from_gives = { λ v r. r ≡ to_shared v };

    fn from(v: Values) -> Shared {
        Shared {
            clock: Moment(v.clock),
            loss_timer: v.loss_timer.into(),
            pto_count: v.pto_count,
            rtt: v.rtt.into(),
            reordering: Reordering {
                pkt_thresh: v.pkt_thresh,
                time_thresh: threshold_of(v.time_thresh),
                lost_spurious_count: v.lost_spurious_count,
            },
            bytes_in_flight: v.bytes_in_flight,
            max_datagram_size: v.max_datagram_size,
            outstanding_non_ack_eliciting: v.outstanding_non_ack_eliciting,
            congestion: v.congestion.into(),
        }
    }
}

// The state that the values stand for.
impl From<Values> for State {
    ghost from_gives = { λ v r. r ≡ state_of v };

    fn from(v: Values) -> State {
        State {
            initial: v.initial.into(),
            handshake: v.handshake.into(),
            application: v.application.into(),
            shared: v.into(),
        }
    }
}
