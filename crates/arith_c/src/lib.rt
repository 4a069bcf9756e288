// What programs in other languages link of arith, as libarith.a: its functions on numbers alone, under C's calling convention.
// Each calls arith's function of the same name and states its clauses again. No function has a `requires`.
#![tactic(auto)]

ghost use Rattle.std.specs.Prelude.{◌≡◌};
ghost use Rattle.arith.specs.Time.{span, span_value};
ghost use Rattle.arith.specs.Refusals.{refusal_of};
ghost use Rattle.arith.specs.Root.{root_value};
ghost use Rattle.arith.specs.RootOf.{root_of};
ghost use Rattle.arith.specs.Round.{threshold_of, product_of, truncated_of, seconds_of};

// The root, and +0 where it is refused.
#[unsafe(no_mangle)]
pub extern "C" fn skavvilet_cube_root(x: f64) -> f64
    ensures { result ≡ root_value (root_of x) }
{
    arith::exports::skavvilet_cube_root(x)
}

// The number of the root's refusal, and 0 where there is none.
#[unsafe(no_mangle)]
pub extern "C" fn skavvilet_cube_root_refusal(x: f64) -> u8
    ensures { result ≡ refusal_of (root_of x) }
{
    arith::exports::skavvilet_cube_root_refusal(x)
}

// The nanoseconds of a loss delay, and 0 where it is refused.
#[unsafe(no_mangle)]
pub extern "C" fn skavvilet_rounded_product(ns: u64, spurious: bool) -> u64
    ensures { result ≡ span_value (product_of (span ns) (threshold_of spurious)) }
{
    arith::exports::skavvilet_rounded_product(ns, spurious)
}

#[unsafe(no_mangle)]
pub extern "C" fn skavvilet_truncated(x: f64) -> u64
    ensures { result ≡ truncated_of x }
{
    arith::exports::skavvilet_truncated(x)
}

#[unsafe(no_mangle)]
pub extern "C" fn skavvilet_seconds_of(ns: u64) -> f64
    ensures { result ≡ seconds_of (span ns) }
{
    arith::exports::skavvilet_seconds_of(ns)
}
