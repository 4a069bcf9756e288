// Which records the ranges hold: each range begins at its place among the records left and goes on below its end. 01 Acknowledgement (000)
ghost use Rattle.std.specs.Prelude.{◌≡◌, ◌+◌, ◌-◌, ◌≤◌, min};
ghost use Rattle.model.specs.Numbers.{capacity};
ghost use Rattle.records.specs.View.{records_of};
ghost use Rattle.acks.specs.Cover.{Covers, Walked, Ranged};

use marks::Covered;
use records::memory::{CAPACITY, Word, Words, held, word_at};
use records::search::place_of;

// How far the ranges so far reach: the place of the first record left, and the place after the last one held.
#[derive(Clone, Copy)]
struct Reach {
    place: usize,
    last: usize,
}

// Flags the records from place from on with numbers below end, and answers the place after them.
fn walk(
    m: &Words,
    n: u64,
    first: usize,
    count: usize,
    end: u64,
    from: usize,
    flags: &mut [bool; 256],
) -> usize
    requires { (first ≤ capacity) × (from ≤ count) × (count ≤ capacity) }
    ensures { Walked (records_of m.now n (first + from) (count - from)) end from result flags.old flags.new }
{
    for i in from..count {
        if end <= word_at(m, n, first + i, Word::Number) {
            return i;
        }
        flags[i] = true;
    }
    count
}

// One range among the records left.
#[tactic(auto, using(crate::proofs::Flags::range_near))]
fn cover_range(
    m: &Words,
    n: u64,
    first: usize,
    count: usize,
    start: u64,
    end: u64,
    w: Reach,
    flags: &mut [bool; 256],
) -> Reach
    requires { (first ≤ capacity) × (w.place ≤ count) × (count ≤ capacity) }
    ensures { Ranged (records_of m.now n (first + w.place) (count - w.place)) start end w result flags.old flags.new }
{
    let from = w.place + place_of(m, n, first + w.place, count - w.place, start);
    let to = walk(m, n, first, count, end, from, flags);
    Reach {
        place: to,
        last: if to == from { w.last } else { to },
    }
}

// For each record of space n whether a range holds it, and the place after the last one held. 000 on_ack_received
#[tactic(auto, using(crate::proofs::Flags::found_near))]
pub fn cover(m: &Words, n: u64, head: usize, len: usize, words: &[u64]) -> Covered
    ensures { Covers words.now (records_of m.now n head (min len capacity)) result }
{
    let first = head % CAPACITY;
    let count = held(len);
    let mut flags = [false; 256];
    let mut w = Reach { place: 0, last: 0 };
    let mut rest = words;
    while let [start, end, more @ ..] = rest {
        w = cover_range(m, n, first, count, *start, *end, w, &mut flags);
        rest = more;
    }
    Covered {
        flags,
        last: w.last,
    }
}
