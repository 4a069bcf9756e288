// Recovery: the checkpoint, the reduction and its rollback, and the lost count.
ghost use Rattle.std.specs.Prelude.{◌≡◌};
ghost use Rattle.model.specs.Cubic as cubic;

use crate::curve::{cubic_k_argument, times_beta, w_max_next};
use arith::refusal::Refusal;
use arith::root::cube_root;
use arith::round::float_of;
use arith::time::{Moment, add_up, multiply};
use model::{Congestion, Cubic, PriorState};

// bytes: 2^30
pub const MAX_WINDOW: u64 = 1073741824;

const MINIMUM_WINDOW_PACKETS: u64 = 2;

// alpha at the start of congestion avoidance: 3 × (1 - beta) / (1 + beta). RFC 9438 section 4.3
pub const ALPHA_AIMD: f64 = 0.5294117647058825;

// Whether a packet sent then is in recovery. 01 CUBIC; congestion/mod.rs in_congestion_recovery
#[tactic(auto, unfolding(model::specs::Cubic::in_recovery))]
pub fn in_congestion_recovery(start: Option<Moment>, sent: Moment) -> bool
    ensures { result ≡ cubic.in_recovery start sent }
{
    start.is_some_and(|m| sent.0 <= m.0)
}

// What a loss keeps before it reduces. 01 CUBIC; 001 checkpoint
#[tactic(auto, unfolding(model::specs::Cubic::checkpoint))]
pub fn checkpoint(g: Congestion) -> PriorState
    ensures { result ≡ cubic.checkpoint g }
{
    PriorState {
        congestion_window: g.congestion_window,
        ssthresh: g.ssthresh,
        w_max: g.cubic.w_max,
        k: g.cubic.k,
        epoch_start: g.congestion_recovery_start_time,
        lost_count: g.lost_count,
    }
}

// Whether a rollback would be done. 01 CUBIC; 001 rollback
#[tactic(auto, unfolding(model::specs::Cubic::rolls_back))]
pub fn rolls_back(g: Congestion) -> bool
    ensures { result ≡ cubic.rolls_back g }
{
    let prior = g.prior;
    if prior.congestion_window < prior.ssthresh {
        return false;
    }
    g.congestion_window < prior.congestion_window
}

// The checkpoint restored; w_est, alpha, cwnd_inc, slow-start bytes and lost count stay. 01 CUBIC; 001 rollback
#[tactic(auto, unfolding(model::specs::Cubic::rolled_back))]
pub fn rolled_back(g: Congestion) -> Congestion
    ensures { result ≡ cubic.rolled_back g }
{
    let prior = g.prior;
    Congestion {
        congestion_window: prior.congestion_window,
        ssthresh: prior.ssthresh,
        congestion_recovery_start_time: prior.epoch_start,
        cubic: Cubic {
            k: prior.k,
            w_max: prior.w_max,
            ..g.cubic
        },
        ..g
    }
}

// A rollback; one turned down changes nothing. 01 CUBIC; 001 rollback
#[tactic(auto, unfolding(model::specs::Cubic::rollback))]
pub fn rollback(g: Congestion) -> Congestion
    ensures { result ≡ cubic.rollback g }
{
    if rolls_back(g) { rolled_back(g) } else { g }
}

// K after a loss, 0 where w_max is below the window. 01 CUBIC; 001 congestion_event, cubic_k
#[tactic(auto, using(arith::proofs::Answer::root_is), unfolding(model::specs::Cubic::k_next))]
fn cubic_k(w_max: f64, window: u64, size: u64) -> Result<f64, Refusal>
    ensures { result ≡ cubic.k_next w_max window size }
{
    let w = float_of(window);
    if w_max < w {
        return Ok(0.0);
    }
    cube_root(cubic_k_argument(w_max, w, float_of(size)))
}

// A loss that begins a recovery period; refusal 7: the window; 2: the root. 01 CUBIC; 001 congestion_event; RFC 9438 section 4.6
#[tactic(auto, unfolding(model::specs::Cubic::reduce))]
pub fn reduce(g: Congestion, now: Moment) -> Result<Congestion, Refusal>
    ensures { result ≡ cubic.reduce now g }
{
    let q = g.cubic;
    let size = g.max_datagram_size;
    let least = multiply(size, MINIMUM_WINDOW_PACKETS)?;
    let window = times_beta(g.congestion_window).max(least);
    if window > MAX_WINDOW {
        return Err(Refusal::TooLarge);
    }
    let w_max = w_max_next(g.congestion_window, q.w_max);
    let k = cubic_k(w_max, window, size)?;
    Ok(Congestion {
        congestion_window: window,
        ssthresh: window,
        congestion_recovery_start_time: Some(now),
        cubic: Cubic {
            k,
            w_max,
            w_est: float_of(window),
            alpha_aimd: ALPHA_AIMD,
            cwnd_inc: times_beta(q.cwnd_inc),
        },
        prior: checkpoint(g),
        ..g
    })
}

// A loss at now, decided by a packet that was sent at `sent`. 01 CUBIC; 001 congestion_event
#[tactic(auto, unfolding(model::specs::Cubic::congestion_event))]
pub fn congestion_event(g: Congestion, now: Moment, sent: Moment) -> Result<Congestion, Refusal>
    ensures { result ≡ cubic.congestion_event now sent g }
{
    if in_congestion_recovery(g.congestion_recovery_start_time, sent) {
        return Ok(g);
    }
    reduce(g, now)
}

// n more lost packets, counted after the event; refusal 7: the count. 01 Lost or not; 000 detect_lost_packets
#[tactic(auto, unfolding(model::specs::Cubic::count_lost))]
pub fn count_lost(g: Congestion, n: u64) -> Result<Congestion, Refusal>
    ensures { result ≡ cubic.count_lost n g }
{
    let count = add_up(g.lost_count, n)?;
    Ok(Congestion {
        lost_count: count,
        ..g
    })
}
