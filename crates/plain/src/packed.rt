// A state written as plain numbers.
#![tactic(auto, unfolding(crate::specs::Values::of_time, crate::specs::Values::of_number, crate::specs::Values::of_threshold, crate::specs::Values::of_space, crate::specs::Values::of_rtt, crate::specs::Values::of_cubic, crate::specs::Values::of_prior, crate::specs::Values::of_congestion, crate::specs::Values::values_of))]

ghost use Rattle.std.specs.Prelude.{◌≡◌};
ghost use Rattle.plain.specs.Values.{of_bool, of_time, of_number, of_threshold, of_space, of_rtt, of_cubic, of_prior, of_congestion, values_of};

use crate::opened::SEAL;
use crate::{
    CongestionValues, CubicValues, NumberValue, PriorValues, RttValues, SpaceValues, TimeValue,
    Values,
};
use arith::round::TimeThreshold;
use arith::time::Moment;
use connection::{SpaceState, State};
use model::{Congestion, Cubic, PriorState, Rtt};

impl From<Option<Moment>> for TimeValue {
    ghost from_gives = { λ t r. r ≡ of_time t };

    fn from(t: Option<Moment>) -> TimeValue {
        match t {
            None => TimeValue { set: 0, ns: 0 },
            Some(m) => TimeValue { set: 1, ns: m.0 },
        }
    }
}

impl From<Option<u64>> for NumberValue {
    ghost from_gives = { λ n r. r ≡ of_number n };

    fn from(n: Option<u64>) -> NumberValue {
        match n {
            None => NumberValue { set: 0, number: 0 },
            Some(x) => NumberValue { set: 1, number: x },
        }
    }
}

#[tactic(auto, unfolding(crate::specs::Values::of_threshold))]
// No From: both types stand in other crates.
fn of_threshold(t: TimeThreshold) -> u64
    ensures { result ≡ of_threshold t }
{
    match t {
        TimeThreshold::NineEighths => 0,
        TimeThreshold::FiveFourths => 1,
    }
}

impl From<SpaceState> for SpaceValues {
    ghost from_gives = { λ s r. r ≡ of_space s };

    fn from(s: SpaceState) -> SpaceValues {
        SpaceValues {
            head: s.head as u64,
            len: s.len as u64,
            acked: s.acked as u64,
            lost_ack: s.lost_ack as u64,
            lost_pto: s.lost_pto as u64,
            time_of_last_ack_eliciting_packet: s.epoch.time_of_last_ack_eliciting_packet.into(),
            largest_acked_packet: s.epoch.largest_acked_packet.into(),
            loss_time: s.epoch.loss_time.into(),
            loss_probes: s.epoch.loss_probes,
            in_flight_count: s.epoch.in_flight_count,
            largest_sent_packet: s.epoch.largest_sent_packet.into(),
        }
    }
}

impl From<Rtt> for RttValues {
    ghost from_gives = { λ v r. r ≡ of_rtt v };

    fn from(v: Rtt) -> RttValues {
        RttValues {
            latest_rtt: v.latest_rtt.0,
            min_rtt: v.min_rtt.0,
            max_rtt: v.max_rtt.0,
            smoothed_rtt: v.smoothed_rtt.0,
            rttvar: v.rttvar.0,
            has_first_rtt_sample: u64::from(v.has_first_rtt_sample),
            max_ack_delay: v.max_ack_delay.0,
        }
    }
}

impl From<Cubic> for CubicValues {
    ghost from_gives = { λ c r. r ≡ of_cubic c };

    fn from(c: Cubic) -> CubicValues {
        CubicValues {
            k: c.k,
            w_max: c.w_max,
            w_est: c.w_est,
            alpha_aimd: c.alpha_aimd,
            cwnd_inc: c.cwnd_inc,
        }
    }
}

impl From<PriorState> for PriorValues {
    ghost from_gives = { λ p r. r ≡ of_prior p };

    fn from(p: PriorState) -> PriorValues {
        PriorValues {
            congestion_window: p.congestion_window,
            ssthresh: p.ssthresh,
            w_max: p.w_max,
            k: p.k,
            epoch_start: p.epoch_start.into(),
            lost_count: p.lost_count,
        }
    }
}

impl From<Congestion> for CongestionValues {
    ghost from_gives = { λ g r. r ≡ of_congestion g };

    fn from(g: Congestion) -> CongestionValues {
        CongestionValues {
            congestion_window: g.congestion_window,
            ssthresh: g.ssthresh,
            bytes_acked_sl: g.bytes_acked_sl,
            congestion_recovery_start_time: g.congestion_recovery_start_time.into(),
            lost_count: g.lost_count,
            cubic: g.cubic.into(),
            prior: g.prior.into(),
            max_datagram_size: g.max_datagram_size,
            initial_window_packets: g.initial_window_packets,
        }
    }
}

// The values that stand for the state.
impl From<State> for Values {
    ghost from_gives = { λ s r. r ≡ values_of s };

    fn from(s: State) -> Values {
        let shared = s.shared;
        Values {
            seal: SEAL,
            initial: s.initial.into(),
            handshake: s.handshake.into(),
            application: s.application.into(),
            clock: shared.clock.0,
            loss_timer: shared.loss_timer.into(),
            pto_count: shared.pto_count,
            rtt: shared.rtt.into(),
            pkt_thresh: shared.reordering.pkt_thresh,
            time_thresh: of_threshold(shared.reordering.time_thresh),
            lost_spurious_count: shared.reordering.lost_spurious_count,
            bytes_in_flight: shared.bytes_in_flight,
            max_datagram_size: shared.max_datagram_size,
            outstanding_non_ack_eliciting: shared.outstanding_non_ack_eliciting,
            congestion: shared.congestion.into(),
        }
    }
}
