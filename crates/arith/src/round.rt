// Rounding: the loss delay's product to the nearest nanosecond, and whole numbers to floats and back.
ghost use Rattle.std.specs.Prelude.{◌≡◌};
ghost use Rattle.arith.specs.Whole.{within};
ghost use Rattle.arith.specs.Time.{as_span};
ghost use Rattle.arith.specs.Round.{Small, nearest, product_of, truncated_of, float_of, seconds_of};

use crate::refusal::Refusal;
use crate::time::{LIMIT, Span};

// Nanoseconds in a second.
const SECOND: u64 = 1000000000;

// 9/8 at first, 5/4 once a loss proved spurious.
#[derive(Clone, Copy)]
pub enum TimeThreshold {
    NineEighths,
    FiveFourths,
}

// s times the threshold, to the nearest nanosecond, halves up.
pub fn rounded_product(s: Span, t: TimeThreshold) -> Result<Span, Refusal>
    ensures { result ≡ product_of s t }
{
    match t {
        TimeThreshold::NineEighths => rounded(9, 8, s.0),
        TimeThreshold::FiveFourths => rounded(5, 4, s.0),
    }
}

// x times num / den as a span. A delay is rounded here and nowhere else.
fn rounded(num: u64, den: u64, x: u64) -> Result<Span, Refusal>
    requires { Small num den }
    ensures { result ≡ as_span (within (nearest num den x)) }
{
    // The product is no smaller than x, and fits where x is a time.
    if x > LIMIT {
        return Err(Refusal::TooLarge);
    }
    let ns = (2 * (num * x) + den) / (2 * den);
    if ns > LIMIT {
        return Err(Refusal::TooLarge);
    }
    Ok(Span(ns))
}

// The whole part of x, as the Rust's `as usize` has it: 0 for a NaN or below 0, 2^64-1 for what passes it.
pub fn truncated(x: f64) -> u64
    ensures { result ≡ truncated_of x }
{
    if x > -1.0 {
        if x < 18446744073709551616.0 {
            return std::num::truncating_f64_to_u64(x);
        }
        return u64::MAX;
    }
    0
}

// The float nearest to n, of two the even one.
pub fn float_of(n: u64) -> f64
    ensures { result ≡ float_of n }
{
    std::num::nearest_u64_to_f64(n)
}

// Whole seconds + rest / 1e9, each operation rounded once.
pub fn seconds_of(s: Span) -> f64
    ensures { result ≡ seconds_of s }
{
    float_of(s.0 / SECOND) + float_of(s.0 % SECOND) / 1e9
}
