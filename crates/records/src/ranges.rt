// The checks of an ack's ranges, lent as words: start, end, start, end, ...
ghost use Rattle.std.specs.Prelude.{◌≡◌};
ghost use Rattle.model.specs.Ranges.{are_ranges, hold, last_end};

use model::NUMBERS;

// 64 ranges.
const MAX_WORDS: usize = 128;

// Whether refusal 4 spares the ranges. 01 The stage numbers
#[tactic(auto, unfolding(model::specs::Ranges::are_ranges, model::specs::Ranges::ascending))]
pub fn are_ranges(words: &[u64]) -> bool
    ensures { result ≡ are_ranges words.now }
{
    if words.is_empty() || MAX_WORDS < words.len() {
        return false;
    }
    let mut least: u64 = 0;
    let mut rest = words;
    while let [start, end, more @ ..] = rest {
        if *start < least || *end <= *start || NUMBERS < *end {
            return false;
        }
        least = *end + 1;
        rest = more;
    }
    rest.is_empty()
}

// Whether a range holds x. 01 The stage numbers, refusal 5
#[tactic(auto, using(crate::proofs::Pairs::hold_low, crate::proofs::Pairs::hold_high), unfolding(model::specs::Ranges::hold))]
pub fn hold(words: &[u64], x: u64) -> bool
    ensures { result ≡ hold words.now x }
{
    let mut rest = words;
    while let [start, end, more @ ..] = rest {
        if *start <= x && x < *end {
            return true;
        }
        rest = more;
    }
    false
}

// The last range's end. 01 Acknowledgement (000) 1
#[tactic(auto, using(crate::proofs::Pairs::last_odd, crate::proofs::Pairs::last_even))]
pub fn last_end(words: &[u64]) -> u64
    ensures { result ≡ last_end words.now }
{
    match words.last() {
        Some(end) if words.len() % 2 == 0 => *end,
        _ => 0,
    }
}
