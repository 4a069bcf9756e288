// CUBIC's float arithmetic: each operation rounds once, in 01's order.
ghost use Rattle.std.specs.Prelude.{◌≡◌};
ghost use Rattle.model.specs.Cubic as cubic;

use arith::round::{float_of, truncated};

// RFC 9438 sections 4.6 and 5.
const BETA_CUBIC: f64 = 0.7;

const C: f64 = 0.4;

const ONE_PLUS_BETA: f64 = 1.7;

// The window on the curve at so many seconds, in bytes. 01 CUBIC; 001 w_cubic; RFC 9438 section 4.2, figure 1
#[tactic(auto, unfolding(model::specs::Cubic::curve))]
pub fn w_cubic(seconds: f64, k: f64, w_max: f64, size: f64) -> f64
    ensures { result ≡ cubic.curve seconds k w_max size }
{
    let x = seconds - k;
    (C * (x * (x * x)) + w_max / size) * size
}

// What acked bytes add to w_est. 01 CUBIC; 001 w_est_inc; RFC 9438 section 4.3, figure 4
#[tactic(auto, unfolding(model::specs::Cubic::w_est_step))]
pub fn w_est_inc(alpha_aimd: f64, acked: f64, window: f64, size: f64) -> f64
    ensures { result ≡ cubic.w_est_step alpha_aimd acked window size }
{
    alpha_aimd * (acked / window) * size
}

// What K is the cube root of. 01 CUBIC; 001 cubic_k; RFC 9438 section 4.2, figure 2
#[tactic(auto, unfolding(model::specs::Cubic::k_argument))]
pub fn cubic_k_argument(w_max: f64, window: f64, size: f64) -> f64
    ensures { result ≡ cubic.k_argument w_max window size }
{
    (w_max / size - window / size) / C
}

// The whole part of 0.7 × n. 01 CUBIC; 001 congestion_event
#[tactic(auto, unfolding(model::specs::Cubic::times_beta))]
pub fn times_beta(n: u64) -> u64
    ensures { result ≡ cubic.times_beta n }
{
    truncated(float_of(n) * BETA_CUBIC)
}

// The larger of two floats; of a number and no number, the number. 001 on_packet_acked
#[tactic(auto, unfolding(model::specs::Cubic::larger))]
pub fn larger(a: f64, b: f64) -> f64
    ensures { result ≡ cubic.larger a b }
{
    if b <= a { a } else { b }
}

#[tactic(auto, unfolding(model::specs::Cubic::smaller))]
pub fn smaller(a: f64, b: f64) -> f64
    ensures { result ≡ cubic.smaller a b }
{
    if a <= b { a } else { b }
}

// w_max after a loss at this window: fast convergence. 01 CUBIC; 001 congestion_event; RFC 9438 section 4.7
#[tactic(auto, unfolding(model::specs::Cubic::w_max_next))]
pub fn w_max_next(window: u64, w_max: f64) -> f64
    ensures { result ≡ cubic.w_max_next window w_max }
{
    let w = float_of(window);
    if w < w_max {
        w * ONE_PLUS_BETA / 2.0
    } else {
        w
    }
}
