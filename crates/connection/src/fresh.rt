// A connection that nothing has happened to.
ghost use Rattle.std.specs.Prelude.{◌≡◌, ◌*◌, ◌≤◌};
ghost use Rattle.model.specs.Cubic.{congestion_fresh};
ghost use Rattle.model.specs.Connection.{shared_fresh};
ghost use Rattle.connection.specs.Steps.{space_state_fresh};
ghost use Rattle.connection.specs.Answers.{Begins};

use crate::{SpaceState, State};
use arith::refusal::Refusal;
use arith::round::TimeThreshold;
use arith::time::Moment;
use estimate::rtt::rtt_fresh;
use front::settings::are_settings;
use model::{Congestion, Cubic, Epoch, PriorState, Reordering, Settings, Shared};

// The packet threshold, and the threshold of slow start, at the start. 01 The stage numbers; CUBIC (001)
const INITIAL_PACKET_THRESHOLD: u64 = 3;

const UNBOUNDED: u64 = u64::MAX;

// The controller before any loss. 01 CUBIC (001)
#[tactic(auto, unfolding(model::specs::Cubic::congestion_fresh))]
fn congestion_fresh(s: Settings) -> Congestion
    requires { s.max_datagram_size * s.initial_window_packets ≤ 6552700 }
    ensures { result ≡ congestion_fresh s }
{
    Congestion {
        congestion_window: s.max_datagram_size * s.initial_window_packets,
        ssthresh: UNBOUNDED,
        bytes_acked_sl: 0,
        congestion_recovery_start_time: None,
        lost_count: 0,
        cubic: Cubic {
            k: 0.0,
            w_max: 0.0,
            w_est: 0.0,
            alpha_aimd: 0.0,
            cwnd_inc: 0,
        },
        prior: PriorState {
            congestion_window: 0,
            ssthresh: 0,
            w_max: 0.0,
            k: 0.0,
            epoch_start: None,
            lost_count: 0,
        },
        max_datagram_size: s.max_datagram_size,
        initial_window_packets: s.initial_window_packets,
    }
}

// What the spaces share.
#[tactic(auto, unfolding(model::specs::Connection::shared_fresh))]
fn shared_fresh(s: Settings) -> Shared
    requires { s.max_datagram_size * s.initial_window_packets ≤ 6552700 }
    ensures { result ≡ shared_fresh s }
{
    Shared {
        clock: Moment(0),
        loss_timer: None,
        pto_count: 0,
        rtt: rtt_fresh(s),
        reordering: Reordering {
            pkt_thresh: INITIAL_PACKET_THRESHOLD,
            time_thresh: TimeThreshold::NineEighths,
            lost_spurious_count: 0,
        },
        bytes_in_flight: 0,
        max_datagram_size: s.max_datagram_size,
        outstanding_non_ack_eliciting: 0,
        congestion: congestion_fresh(s),
    }
}

// A space without records and handles.
#[tactic(auto, unfolding(crate::specs::Steps::space_state_fresh, model::specs::Connection::epoch_fresh))]
fn space_fresh() -> SpaceState
    ensures { result ≡ space_state_fresh }
{
    SpaceState {
        head: 0,
        len: 0,
        acked: 0,
        lost_ack: 0,
        lost_pto: 0,
        epoch: Epoch {
            time_of_last_ack_eliciting_packet: None,
            largest_acked_packet: None,
            loss_time: None,
            loss_probes: 0,
            in_flight_count: 0,
            largest_sent_packet: None,
        },
    }
}

// A connection with these settings, over whatever words. 01 The stage numbers; 000 new
#[tactic(auto, using(crate::proofs::Events::settings_fit), unfolding(crate::specs::Steps::fresh_state))]
pub fn fresh(s: Settings) -> Result<State, Refusal>
    ensures { Begins s result }
{
    if !are_settings(s) {
        return Err(Refusal::Domain);
    }
    let space = space_fresh();
    Ok(State {
        initial: space,
        handshake: space,
        application: space,
        shared: shared_fresh(s),
    })
}
