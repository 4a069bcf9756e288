// The crate's functions under plain names, on numbers alone. Crate arith_c exports them to programs in other languages.
ghost use Rattle.std.specs.Prelude.{◌≡◌};
ghost use Rattle.arith.specs.Time.{span, span_value};
ghost use Rattle.arith.specs.Refusals.{refusal_of};
ghost use Rattle.arith.specs.Root.{root_value};
ghost use Rattle.arith.specs.RootOf.{root_of};
ghost use Rattle.arith.specs.Round.{threshold_of, product_of, truncated_of, seconds_of};

use crate::root::cube_root;
use crate::round::{TimeThreshold, rounded_product, seconds_of, truncated};
use crate::time::Span;

// The root, and +0 where it is refused.
pub fn skavvilet_cube_root(x: f64) -> f64
    ensures { result ≡ root_value (root_of x) }
{
    cube_root(x).unwrap_or(0.0)
}

// The number of the root's refusal, and 0 where there is none.
#[tactic(auto, using(crate::proofs::Answer::root_is))]
pub fn skavvilet_cube_root_refusal(x: f64) -> u8
    ensures { result ≡ refusal_of (root_of x) }
{
    match cube_root(x) {
        Ok(_) => 0,
        Err(why) => u8::from(why),
    }
}

fn threshold(spurious: bool) -> TimeThreshold
    ensures { result ≡ threshold_of spurious }
{
    if spurious {
        TimeThreshold::FiveFourths
    } else {
        TimeThreshold::NineEighths
    }
}

// The nanoseconds of a loss delay, and 0 where it is refused.
pub fn skavvilet_rounded_product(ns: u64, spurious: bool) -> u64
    ensures { result ≡ span_value (product_of (span ns) (threshold_of spurious)) }
{
    rounded_product(Span(ns), threshold(spurious)).map_or(0, |s| s.0)
}

pub fn skavvilet_truncated(x: f64) -> u64
    ensures { result ≡ truncated_of x }
{
    truncated(x)
}

pub fn skavvilet_seconds_of(ns: u64) -> f64
    ensures { result ≡ seconds_of (span ns) }
{
    seconds_of(Span(ns))
}
