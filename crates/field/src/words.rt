// Words `name=value` written into a lent buffer from a place on; each answers the place after. What does not fit is dropped.
ghost use Rattle.std.specs.Prelude.{[], ◌∷◌, ◌++◌, ◌≡◌, ℕ, List, suc, ◌%◌};
ghost use Rattle.std.specs.Float.{binary64};
ghost use Rattle.std.specs.Float.Ieee.{to_bits};
ghost use Rattle.model.specs.Trace.{decimal, timer_text};
ghost use Rattle.trace.specs.Put.{Put};
ghost use Rattle.trace.specs.Behind.{Behind};
ghost use Rattle.field.specs.Words.{named, number_text, bit_text, threshold_text, hex_digit, hex, float_text};

use arith::round::TimeThreshold;
use arith::time::Moment;
use trace::put::{put_byte, put_decimal, put_timer, put_word};
use trace::text::Text;

// The pattern that stands for every NaN.
const NAN_BITS: u64 = 9221120237041090560;

// The character of a number's last hex digit.
fn hex_digit(n: u64) -> u8
    ensures { result ≡ hex_digit (n % 16) }
{
    let d = n % 16;
    if d < 10 {
        (48 + d) as u8
    } else {
        (87 + d) as u8
    }
}

// A number's last hex digits: one, and so many more before it.
pub fn put_hex(out: &mut [u8], at: usize, n: u64, more: usize) -> usize
    ensures { Put out.old at (hex (suc more) n []) out.new result }
{
    if more == 0 {
        return put_byte(out, at, hex_digit(n));
    }
    let at = put_hex(out, at, n / 16, more - 1);
    put_byte(out, at, hex_digit(n))
}

// The bits of a float.
pub fn bits_of(x: f64) -> u64
    ensures { result ≡ to_bits binary64 x }
{
    if x == x { f64::to_bits(x) } else { NAN_BITS }
}

// What stands behind a word's `=`, written into a lent buffer from a place on.
pub trait ValueAt {
    ghost text: { Self → List ℕ };

    fn put(self, out: &mut [u8], at: usize) -> usize
        ensures { Put out.old at (text self) out.new result };
}

// A number in decimal.
impl ValueAt for u64 {
    ghost text = { decimal };

    fn put(self, out: &mut [u8], at: usize) -> usize {
        put_decimal(out, at, self)
    }
}

// A moment in nanoseconds, or `-`.
impl ValueAt for Option<Moment> {
    ghost text = { timer_text };

    fn put(self, out: &mut [u8], at: usize) -> usize {
        put_timer(out, at, self)
    }
}

// A number, or `-`.
impl ValueAt for Option<u64> {
    ghost text = { number_text };

    fn put(self, out: &mut [u8], at: usize) -> usize {
        match self {
            None => put_byte(out, at, b'-'),
            Some(n) => put_decimal(out, at, n),
        }
    }
}

// 1 or 0.
impl ValueAt for bool {
    ghost text = { bit_text };

    fn put(self, out: &mut [u8], at: usize) -> usize {
        put_byte(out, at, if self { b'1' } else { b'0' })
    }
}

// A float as the 16 hex digits of its bits.
impl ValueAt for f64 {
    ghost text = { float_text };

    fn put(self, out: &mut [u8], at: usize) -> usize {
        put_hex(out, at, bits_of(self), 15)
    }
}

// `9/8` or `5/4`.
impl ValueAt for TimeThreshold {
    ghost text = { threshold_text };

    fn put(self, out: &mut [u8], at: usize) -> usize {
        match self {
            TimeThreshold::NineEighths => put_word(out, at, b"9/8"),
            TimeThreshold::FiveFourths => put_word(out, at, b"5/4"),
        }
    }
}

// What stands before a word, its name, `=` and its value.
pub fn put_value_at<V: ValueAt>(
    out: &mut [u8],
    at: usize,
    tag: &[u8],
    name: &[u8],
    value: V,
) -> usize
    ensures { Put out.old at (named tag.now name.now (V.text value)) out.new result }
{
    let at = put_word(out, at, tag);
    let at = put_word(out, at, name);
    let at = put_byte(out, at, b'=');
    value.put(out, at)
}

// The same, put behind what a text has.
pub trait Value<const N: usize> {
    ghost text: { Self → List ℕ };

    fn put(self, out: &mut Text<N>)
        ensures { Behind N out.old (text self) out.new };
}

// By way of a buffer as long as the text may be.
fn put_behind<const N: usize, V: ValueAt>(out: &mut Text<N>, value: V)
    ensures { Behind N out.old (V.text value) out.new }
{
    let mut room = [0; N];
    let n = value.put(&mut room, 0);
    out.put_word(&room[..n]);
}

impl<const N: usize> Value<N> for u64 {
    ghost text = { decimal };

    fn put(self, out: &mut Text<N>) {
        put_behind::<N, u64>(out, self);
    }
}

impl<const N: usize> Value<N> for Option<Moment> {
    ghost text = { timer_text };

    fn put(self, out: &mut Text<N>) {
        put_behind::<N, Option<Moment>>(out, self);
    }
}

impl<const N: usize> Value<N> for Option<u64> {
    ghost text = { number_text };

    fn put(self, out: &mut Text<N>) {
        put_behind::<N, Option<u64>>(out, self);
    }
}

impl<const N: usize> Value<N> for bool {
    ghost text = { bit_text };

    fn put(self, out: &mut Text<N>) {
        put_behind::<N, bool>(out, self);
    }
}

impl<const N: usize> Value<N> for f64 {
    ghost text = { float_text };

    fn put(self, out: &mut Text<N>) {
        put_behind::<N, f64>(out, self);
    }
}

impl<const N: usize> Value<N> for TimeThreshold {
    ghost text = { threshold_text };

    fn put(self, out: &mut Text<N>) {
        put_behind::<N, TimeThreshold>(out, self);
    }
}

// What stands before a word, its name, `=` and its value.
pub fn put_value<const N: usize, V: Value<N>>(out: &mut Text<N>, tag: &[u8], name: &[u8], value: V)
    ensures { Behind N out.old (named tag.now name.now (V.text value)) out.new }
{
    out.put_word(tag);
    out.put_word(name);
    out.put_byte(b'=');
    value.put(out);
}
