// Moments and spans in whole nanoseconds, and the sums and products that 01 bounds by 2^53-1.
// An answer past that bound is refusal 7.
ghost use Rattle.std.specs.Prelude.{◌≡◌, Result};
ghost use Rattle.arith.specs.Whole.{sum_of, times_of};
ghost use Rattle.arith.specs.Time.{as_span, as_moment, span_sum_of, scaled_of, later_of, since_of, longer_of, shorter_of, passed_by};

use crate::refusal::Refusal;

// 2^53-1: the largest time, and the largest sum, product or count that the rules may reach.
pub const LIMIT: u64 = 9007199254740991;

// A point in time, in nanoseconds.
#[derive(Clone, Copy, PartialEq, Eq, PartialOrd, Ord)]
pub struct Moment(pub u64);

// A length of time, in nanoseconds.
#[derive(Clone, Copy, PartialEq, Eq, PartialOrd, Ord)]
pub struct Span(pub u64);

// a + b.
#[tactic(auto, unfolding(crate::specs::Whole::sum_of, crate::specs::Whole::within))]
pub fn add_up(a: u64, b: u64) -> Result<u64, Refusal>
    ensures { result ≡ sum_of a b }
{
    match a.checked_add(b) {
        Some(n) if n <= LIMIT => Ok(n),
        _ => Err(Refusal::TooLarge),
    }
}

// a times b.
#[tactic(auto, unfolding(crate::specs::Whole::times_of, crate::specs::Whole::within))]
pub fn multiply(a: u64, b: u64) -> Result<u64, Refusal>
    ensures { result ≡ times_of a b }
{
    match a.checked_mul(b) {
        Some(n) if n <= LIMIT => Ok(n),
        _ => Err(Refusal::TooLarge),
    }
}

// A number read as nanoseconds of length.
pub fn as_span(n: Result<u64, Refusal>) -> Result<Span, Refusal>
    ensures { result ≡ as_span n }
{
    Ok(Span(n?))
}

// A number read as nanoseconds of the clock.
pub fn as_moment(n: Result<u64, Refusal>) -> Result<Moment, Refusal>
    ensures { result ≡ as_moment n }
{
    Ok(Moment(n?))
}

// a and then b.
#[tactic(auto, unfolding(crate::specs::Time::span_sum_of))]
pub fn add_spans(a: Span, b: Span) -> Result<Span, Refusal>
    ensures { result ≡ span_sum_of a b }
{
    as_span(add_up(a.0, b.0))
}

// k times s.
#[tactic(auto, unfolding(crate::specs::Time::scaled_of))]
pub fn scale(k: u64, s: Span) -> Result<Span, Refusal>
    ensures { result ≡ scaled_of k s }
{
    as_span(multiply(k, s.0))
}

// The moment s after m.
#[tactic(auto, unfolding(crate::specs::Time::later_of))]
pub fn later(m: Moment, s: Span) -> Result<Moment, Refusal>
    ensures { result ≡ later_of m s }
{
    as_moment(add_up(m.0, s.0))
}

// The time from earlier to m, and 0 where m is before it, as the Rust's saturating_duration_since.
pub fn since(m: Moment, earlier: Moment) -> Span
    ensures { result ≡ since_of m earlier }
{
    Span(m.0.saturating_sub(earlier.0))
}

// The longer of two spans.
pub fn longer(a: Span, b: Span) -> Span
    ensures { result ≡ longer_of a b }
{
    Span(a.0.max(b.0))
}

// The shorter of two spans.
pub fn shorter(a: Span, b: Span) -> Span
    ensures { result ≡ shorter_of a b }
{
    Span(a.0.min(b.0))
}

// Whether s has passed since m by now: m <= now - s, which fails where now < s.
pub fn passed(m: Moment, s: Span, now: Moment) -> bool
    ensures { result ≡ passed_by m s now }
{
    now.0.checked_sub(s.0).is_some_and(|edge| m.0 <= edge)
}
