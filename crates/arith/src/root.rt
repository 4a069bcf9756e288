// The cube root: the largest f64 whose exact cube is at most the argument, found over whole numbers.
// A number over 64 bits is held in limbs of 52 bits; factors are cut at 26.
ghost use Rattle.std.specs.Prelude.{◌≡◌, ◌+◌, ◌*◌, ◌^◌, ◌<◌, ◌≤◌, nat_le};
ghost use Rattle.arith.specs.Root.{Rooted, WholeRoot};

use crate::refusal::Refusal;

const TWO_26: u64 = 67108864;

const TWO_52: u64 = 4503599627370496;

const TWO_53: u64 = 9007199254740992;

// 2^-60 and 2^40: no argument but 0 lies outside them.
const LEAST: f64 = 8.673617379884035e-19;

const GREATEST: f64 = 1099511627776.0;

// high * 2^52 + low.
#[derive(Clone, Copy)]
struct Parts {
    high: u64,
    low: u64,
}

// a times b.
fn product(a: u64, b: u64) -> Parts
    requires { (a < 2 ^ 54) × (b < 2 ^ 53) }
    ensures { (result.high * 2 ^ 52 + result.low ≡ a * b) × (result.low < 2 ^ 52) }
{
    let a1 = a / TWO_26;
    let a0 = a % TWO_26;
    let b1 = b / TWO_26;
    let b0 = b % TWO_26;
    let mid = a1 * b0 + a0 * b1;
    let low = mid % TWO_26 * TWO_26 + a0 * b0;
    Parts {
        high: a1 * b1 + mid / TWO_26 + low / TWO_52,
        low: low % TWO_52,
    }
}

// Whether the cube of q is at most a times 2^104.
fn cube_within(q: u64, a: u64) -> bool
    requires { q < 2 ^ 53 }
    ensures { result ≡ nat_le (q * q * q) (a * 2 ^ 104) }
{
    let square = product(q, q);
    let bottom = product(square.low, q);
    let top = product(square.high, q);
    let mid = top.low + bottom.high;
    let whole = top.high + mid / TWO_52;
    if whole < a {
        return true;
    }
    if a < whole {
        return false;
    }
    if mid % TWO_52 == 0 {
        if bottom.low == 0 {
            return true;
        }
    }
    false
}

// The whole root of a times 2^104, which lies from `from` on and below `to`, by halving: no iterator's bracket narrows from both ends.
fn settle(a: u64, from: u64, to: u64) -> u64
    requires { (from < to) × (to ≤ 2 ^ 53) × (from * from * from ≤ a * 2 ^ 104) × (a * 2 ^ 104 < to * to * to) }
    ensures { WholeRoot (a * 2 ^ 104) result × (from ≤ result) × (result < to) }
{
    let mut lo = from;
    let mut hi = to;
    while 1 < hi - lo {
        let mid = lo + (hi - lo) / 2;
        if cube_within(mid, a) {
            lo = mid;
        } else {
            hi = mid;
        }
    }
    lo
}

// The whole root of a times 2^104: it has 53 digits.
fn whole_root(a: u64) -> u64
    requires { (2 ^ 52 ≤ a) × (a < 2 ^ 55) }
    ensures { WholeRoot (a * 2 ^ 104) result × (2 ^ 52 ≤ result) × (result < 2 ^ 53) }
{
    settle(a, TWO_52, TWO_53)
}

// +0 for either 0; refusal 2 for what is not 0 and not within 2^-60 to 2^40.
pub fn cube_root(x: f64) -> Result<f64, Refusal>
    ensures { Rooted x result }
{
    if x == 0.0 {
        return Ok(0.0);
    }
    if x >= LEAST {
        if x <= GREATEST {
            let bits = f64::to_bits(x);
            // x is m * 2^(e - 1075); a third of its exponent is left once m has e % 3 zeros more.
            let e = bits / TWO_52;
            let m = bits % TWO_52 + TWO_52;
            let q = whole_root(m << (e % 3));
            return Ok(f64::from_bits((e / 3 + 681) * TWO_52 + q));
        }
    }
    Err(Refusal::Domain)
}
