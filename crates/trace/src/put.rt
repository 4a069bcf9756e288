// Bytes, words and numbers written into a lent buffer from a place on; each answers the place after.
// What does not fit is dropped, so that no writer asks anything of its caller.
ghost use Rattle.std.specs.Prelude.{[], ◌∷◌, ◌++◌, ◌≡◌, ◌+◌, ◌%◌};
ghost use Rattle.model.specs.Trace.{decimal, timer_text, text, shows};
ghost use Rattle.trace.specs.Put.{Put};

use arith::time::Moment;

// One byte.
#[tactic(auto, using(crate::proofs::Puts::put_out))]
pub fn put_byte(out: &mut [u8], at: usize, b: u8) -> usize
    ensures { Put out.old at (b ∷ []) out.new result }
{
    if at < out.len() {
        out[at] = b;
        return at + 1;
    }
    out.len()
}

// The bytes of a word.
pub fn put_word(out: &mut [u8], at: usize, word: &[u8]) -> usize
    ensures { Put out.old at word.now out.new result }
{
    let mut place = at.min(out.len());
    for &b in word {
        place = put_byte(out, place, b);
    }
    place
}

// The character of a number's last digit.
fn digit(n: u64) -> u8
    ensures { result ≡ 48 + n % 10 }
{
    (48 + n % 10) as u8
}

// A number's decimal digits.
pub fn put_decimal(out: &mut [u8], at: usize, n: u64) -> usize
    ensures { Put out.old at (decimal n) out.new result }
{
    if n < 10 {
        return put_byte(out, at, digit(n));
    }
    let place = put_decimal(out, at, n / 10);
    put_byte(out, place, digit(n))
}

// A moment in nanoseconds, or `-`.
pub fn put_timer(out: &mut [u8], at: usize, timer: Option<Moment>) -> usize
    ensures { Put out.old at (timer_text timer) out.new result }
{
    match timer {
        None => put_byte(out, at, b'-'),
        Some(moment) => put_decimal(out, at, moment.0),
    }
}

// A number, and the space that parts it from the next.
fn put_field(out: &mut [u8], at: usize, n: u64) -> usize
    ensures { Put out.old at (decimal n ++ (32 ∷ [])) out.new result }
{
    let place = put_decimal(out, at, n);
    put_byte(out, place, b' ')
}

// An event's line, without its newline: kind, refusal, window, in flight, timer or `-`. 01 Replay and the host
pub fn put_shown(
    out: &mut [u8],
    at: usize,
    kind: u8,
    refusal: u64,
    window: u64,
    bytes: u64,
    timer: Option<Moment>,
) -> usize
    ensures { Put out.old at (text (shows kind refusal window bytes timer)) out.new result }
{
    let after_kind = put_field(out, at, u64::from(kind));
    let after_refusal = put_field(out, after_kind, refusal);
    let after_window = put_field(out, after_refusal, window);
    let after_bytes = put_field(out, after_window, bytes);
    put_timer(out, after_bytes, timer)
}
