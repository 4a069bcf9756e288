// Growth of the window on acked packets, and a size change.
ghost use Rattle.std.specs.Prelude.{◌≡◌, Bool, cond, ◌&&◌, ℕ, ◌-◌, ◌/◌, Result};
ghost use Rattle.std.specs.Float.Ieee.{le};
ghost use Rattle.arith.specs.Refusals.{then};
ghost use Rattle.model.specs.Cubic as cubic;
ghost use Rattle.model.specs.declared.Congestion.{Congestion};
ghost use Rattle.arith.specs.declared.refusal.Refusal.{Refusal};
ghost use Rattle.congestion.specs.Towards.{towards};

use crate::curve::{larger, smaller, w_cubic, w_est_inc};
use crate::recovery::{ALPHA_AIMD, MAX_WINDOW, in_congestion_recovery, rolled_back, rolls_back};
use arith::refusal::Refusal;
use arith::round::{float_of, seconds_of, truncated};
use arith::time::{LIMIT, Moment, Span, add_spans, add_up, multiply, since};
use model::{Congestion, Cubic};

// 01 CUBIC; 001 ROLLBACK_THRESHOLD_PERCENT, MIN_ROLLBACK_THRESHOLD
const ROLLBACK_THRESHOLD_PERCENT: u64 = 20;

const MIN_ROLLBACK_THRESHOLD: u64 = 2;

// A window, and the bytes that wait beside it.
#[derive(Clone, Copy)]
struct Stepped {
    window: u64,
    waiting: u64,
}

// a / b rounded down, and 0 where b is 0, as the definitions divide.
fn quotient(a: u64, b: u64) -> u64
    ensures { result ≡ a / b }
{
    a.checked_div(b).unwrap_or(0)
}

// g with another window, slow-start bytes, start and CUBIC values.
fn grown(
    g: Congestion,
    window: u64,
    slow_start_bytes: u64,
    start: Option<Moment>,
    q: Cubic,
) -> Congestion
    ensures { result ≡ cubic.grown g window slow_start_bytes start q }
{
    Congestion {
        congestion_window: window,
        bytes_acked_sl: slow_start_bytes,
        congestion_recovery_start_time: start,
        cubic: q,
        ..g
    }
}

// A whole datagram of waiting bytes moves the window on by one. 01 CUBIC; 001 on_packet_acked
fn by_datagram(size: u64, window: u64, waiting: u64) -> Result<Stepped, Refusal>
    ensures { (k : ℕ → ℕ → Result Congestion Refusal) → then result (λ s. k s.window s.waiting) ≡ cubic.by_datagram size window waiting k }
{
    if waiting < size {
        return Ok(Stepped { window, waiting });
    }
    if window > MAX_WINDOW || size > MAX_WINDOW - window {
        return Err(Refusal::TooLarge);
    }
    Ok(Stepped {
        window: window + size,
        waiting: waiting - size,
    })
}

// Slow start: acked bytes wait for a whole datagram; refusal 7: their sum, the window. 01 CUBIC; 001 on_packet_acked
#[tactic(auto, unfolding(model::specs::Cubic::slow_start))]
pub fn slow_start(g: Congestion, acked: u64) -> Result<Congestion, Refusal>
    ensures { result ≡ cubic.slow_start acked g }
{
    let sum = add_up(g.bytes_acked_sl, acked)?;
    let stepped = by_datagram(g.max_datagram_size, g.congestion_window, sum)?;
    Ok(grown(
        g,
        stepped.window,
        stepped.waiting,
        g.congestion_recovery_start_time,
        g.cubic,
    ))
}

// The start of CUBIC's clock: now where none is set. 01 CUBIC; 001 on_packet_acked, ca_start_time
fn start_of(start: Option<Moment>, now: Moment) -> Moment
    ensures { result ≡ cubic.start_of start now }
{
    start.unwrap_or(now)
}

// CUBIC's values at the start of its clock, where none is set. 01 CUBIC; 001 on_packet_acked
#[tactic(auto, unfolding(model::specs::Cubic::begun))]
fn begun(start: Option<Moment>, window: u64, q: Cubic) -> Cubic
    ensures { result ≡ cubic.begun start window q }
{
    if start.is_some() {
        return q;
    }
    let w = float_of(window);
    Cubic {
        k: 0.0,
        w_max: w,
        w_est: w,
        alpha_aimd: ALPHA_AIMD,
        cwnd_inc: q.cwnd_inc,
    }
}

// The curve then, clipped to [window, 1.5 × window]. 01 CUBIC; 001 on_packet_acked; RFC 9438 section 4.4
#[tactic(auto, unfolding(model::specs::Cubic::target_of))]
fn target_of(q: Cubic, window: u64, size: u64, then: Span) -> u64
    ensures { result ≡ cubic.target_of q window size then }
{
    let w = float_of(window);
    let target = w_cubic(seconds_of(then), q.k, q.w_max, float_of(size));
    truncated(smaller(larger(target, w), w * 1.5))
}

// alpha is 1 once w_est reached w_max. 01 CUBIC; 001 on_packet_acked
fn alpha_next(w_max: f64, w_est: f64, alpha_aimd: f64) -> f64
    ensures { result ≡ cond (le w_max w_est) cubic.one alpha_aimd }
{
    if w_max <= w_est { 1.0 } else { alpha_aimd }
}

// w_est after its step, and alpha. 01 CUBIC; 001 on_packet_acked; RFC 9438 section 4.3
#[tactic(auto, unfolding(model::specs::Cubic::estimated))]
fn estimated(q: Cubic, acked: u64, window: u64, size: u64) -> Result<Cubic, Refusal>
    ensures { result ≡ cubic.estimated acked window size q }
{
    let step = w_est_inc(
        q.alpha_aimd,
        float_of(acked),
        float_of(window),
        float_of(size),
    );
    let w = q.w_est + step;
    if float_of(LIMIT) < w {
        return Err(Refusal::TooLarge);
    }
    Ok(Cubic {
        w_est: w,
        alpha_aimd: alpha_next(q.w_max, w, q.alpha_aimd),
        ..q
    })
}

// The window that CUBIC would have. 01 CUBIC; 001 on_packet_acked, cubic_cwnd
#[tactic(auto, unfolding(model::specs::Cubic::aimed_at))]
fn aimed_at(q: Cubic, window: u64, size: u64, t: Span, target: u64) -> Result<u64, Refusal>
    ensures { (k : ℕ → Result Congestion Refusal) → then result k ≡ cubic.aimed_at q window size t target k }
{
    let curve = w_cubic(seconds_of(t), q.k, q.w_max, float_of(size));
    if curve < q.w_est {
        return Ok(window.max(truncated(q.w_est)));
    }
    let step = multiply(size, target.saturating_sub(window))?;
    add_up(window, quotient(step, window))
}

// The step towards a target of CUBIC's values e, t after their start. 01 CUBIC; 001 on_packet_acked
fn step_towards(
    g: Congestion,
    start: Moment,
    e: Cubic,
    t: Span,
    target: u64,
) -> Result<Congestion, Refusal>
    ensures { result ≡ towards g start e t target }
{
    let window = g.congestion_window;
    let size = g.max_datagram_size;
    let aim = aimed_at(e, window, size, t, target)?;
    let sum = add_up(e.cwnd_inc, aim.saturating_sub(window))?;
    let stepped = by_datagram(size, window, sum)?;
    let q = Cubic {
        cwnd_inc: stepped.waiting,
        ..e
    };
    Ok(grown(g, stepped.window, g.bytes_acked_sl, Some(start), q))
}

// Congestion avoidance; refusal 7: t + min RTT, w_est, cwnd_inc, the window and what leads to them. 01 CUBIC; 001 on_packet_acked
#[tactic(auto, unfolding(model::specs::Cubic::avoidance))]
pub fn avoidance(
    g: Congestion,
    now: Moment,
    acked: u64,
    min_rtt: Span,
) -> Result<Congestion, Refusal>
    ensures { result ≡ cubic.avoidance now acked min_rtt g }
{
    let window = g.congestion_window;
    let size = g.max_datagram_size;
    let start = start_of(g.congestion_recovery_start_time, now);
    let t = since(now, start);
    let q = begun(g.congestion_recovery_start_time, window, g.cubic);
    let then = add_spans(t, min_rtt)?;
    let e = estimated(q, acked, window, size)?;
    step_towards(g, start, e, t, target_of(q, window, size, then))
}

// Whether fewer were lost since the checkpoint than a fifth of the window's packets, or than 2. 01 CUBIC; 001 on_packet_acked
#[tactic(auto, unfolding(model::specs::Cubic::few_lost))]
fn few_lost(g: Congestion) -> Result<bool, Refusal>
    ensures { (k : Bool → Result Congestion Refusal) → then result k ≡ cubic.few_lost g k }
{
    let packets = quotient(g.congestion_window, g.max_datagram_size);
    let n = multiply(packets, ROLLBACK_THRESHOLD_PERCENT)?;
    let threshold = (n / 100).max(MIN_ROLLBACK_THRESHOLD);
    Ok(g.lost_count.saturating_sub(g.prior.lost_count) < threshold)
}

// Slow start below the threshold, else congestion avoidance. 01 CUBIC; 001 on_packet_acked
#[tactic(auto, unfolding(model::specs::Cubic::grow))]
fn grow(g: Congestion, now: Moment, acked: u64, min_rtt: Span) -> Result<Congestion, Refusal>
    ensures { result ≡ cubic.grow now acked min_rtt g }
{
    if g.congestion_window < g.ssthresh {
        return slow_start(g, acked);
    }
    avoidance(g, now, acked, min_rtt)
}

// An acked packet outside recovery: a rollback where few were lost, which ends its step. 01 CUBIC; 001 on_packet_acked
#[tactic(auto, unfolding(model::specs::Cubic::acked_outside))]
fn acked_outside(
    g: Congestion,
    now: Moment,
    acked: u64,
    min_rtt: Span,
) -> Result<Congestion, Refusal>
    ensures { result ≡ cubic.acked_outside now acked min_rtt g }
{
    if g.congestion_recovery_start_time.is_none() {
        return grow(g, now, acked, min_rtt);
    }
    let few = few_lost(g)?;
    if few && rolls_back(g) {
        return Ok(rolled_back(g));
    }
    grow(g, now, acked, min_rtt)
}

// An acked packet: in recovery, or while the application limits the sender, it changes nothing. 01 CUBIC; 001 on_packet_acked
#[tactic(auto, unfolding(model::specs::Cubic::packet_acked))]
pub fn packet_acked(
    g: Congestion,
    now: Moment,
    sent: Moment,
    size: u64,
    limited: bool,
    min_rtt: Span,
) -> Result<Congestion, Refusal>
    ensures { result ≡ cubic.packet_acked now sent size limited min_rtt g }
{
    if in_congestion_recovery(g.congestion_recovery_start_time, sent) || limited {
        return Ok(g);
    }
    acked_outside(g, now, size, min_rtt)
}

// A change of the datagram size from old to new; refusal 7: the products, the window. 01 Timer and PTO; 000 pmtud_update_max_datagram_size
#[tactic(auto, unfolding(model::specs::Cubic::resized))]
pub fn resized(g: Congestion, old: u64, new: u64) -> Result<Congestion, Refusal>
    ensures { result ≡ cubic.resized old new g }
{
    let initial = multiply(old, g.initial_window_packets)?;
    if g.congestion_window != initial {
        return Ok(g);
    }
    let window = multiply(new, g.initial_window_packets)?;
    if window > MAX_WINDOW {
        return Err(Refusal::TooLarge);
    }
    Ok(grown(
        g,
        window,
        g.bytes_acked_sl,
        g.congestion_recovery_start_time,
        g.cubic,
    ))
}
