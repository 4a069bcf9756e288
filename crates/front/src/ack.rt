// What an acknowledgement's numbers can be refused for, before a record is looked at. 01 The stage numbers
ghost use Rattle.std.specs.Prelude.{◌≡◌};
ghost use Rattle.model.specs.Ranges.{hold_skipped, is_skipped};
ghost use Rattle.front.specs.Checked.{checked_ack};

use crate::clock::on_clock;
use arith::refusal::Refusal;
use arith::time::{Moment, Span, multiply};
use model::NUMBERS;
use records::ranges::{are_ranges, hold};

// The delay comes in microseconds.
const MICROSECOND: u64 = 1000;

// Whether refusal 2 spares the skipped number. 01 The stage numbers
fn is_skipped(skipped: Option<u64>) -> bool
    ensures { result ≡ is_skipped skipped }
{
    skipped.is_none_or(|x| x < NUMBERS)
}

// Whether a range holds the skipped number. 01 The stage numbers, refusal 5
fn hold_skipped(words: &[u64], skipped: Option<u64>) -> bool
    ensures { result ≡ hold_skipped words.now skipped }
{
    skipped.is_some_and(|x| hold(words, x))
}

// Refusals 1, 2, 4, 5 and 7, in this order. 01 The stage numbers
#[tactic(auto, unfolding(crate::specs::Checked::checked_ack))]
pub fn check_ack(
    clock: Moment,
    time: Moment,
    n: u64,
    words: &[u64],
    delay: u64,
    skipped: Option<u64>,
) -> Result<Span, Refusal>
    ensures { result ≡ checked_ack clock time n words.now delay skipped }
{
    if !on_clock(clock, time) {
        return Err(Refusal::Clock);
    }
    if 3 <= n || !is_skipped(skipped) {
        return Err(Refusal::Domain);
    }
    if !are_ranges(words) {
        return Err(Refusal::Ranges);
    }
    if hold_skipped(words, skipped) {
        return Err(Refusal::Skipped);
    }
    let ns = multiply(MICROSECOND, delay)?;
    Ok(Span(ns))
}
