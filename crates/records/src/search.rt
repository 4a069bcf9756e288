// The place where a range begins among the records of a space, found by halving, in the form that 01 names: a recursion whose width falls. 01 Acknowledgement (000)
ghost use Rattle.std.specs.Prelude.{◌≡◌, ◌+◌, ◌≤◌, ◌%◌, min, get_or};
ghost use Rattle.model.specs.Numbers.{capacity};
ghost use Rattle.model.specs.Sent.{halved, place_of};
ghost use Rattle.records.specs.View.{at, records_of, number_in};

use crate::memory::{CAPACITY, Word, Words, held, word_at};

// The first of width places from lo on whose number is not below x, else lo + width.
#[tactic(auto, using(crate::proofs::Halving::halved_empty, crate::proofs::Halving::place_past, crate::proofs::Halving::place_left))]
fn place_in(m: &Words, n: u64, head: usize, x: u64, lo: usize, width: usize) -> usize
    requires { (head ≤ capacity) × (lo + width ≤ capacity) }
    ensures { result ≡ halved width (number_in m.now n head) x lo width }
{
    if width == 0 {
        return lo;
    }
    let half = width / 2;
    let mid = lo + half;
    if word_at(m, n, head + mid, Word::Number) < x {
        place_in(m, n, head, x, mid + 1, width - half - 1)
    } else {
        place_in(m, n, head, x, lo, half)
    }
}

// The first record of space n whose number is not below x, counted from the oldest.
#[tactic(auto, using(crate::proofs::Halving::place_memory))]
pub fn place_of(m: &Words, n: u64, head: usize, len: usize, x: u64) -> usize
    ensures { result ≡ place_of x (records_of m.now n (head % capacity) (min len capacity)) }
{
    place_in(m, n, head % CAPACITY, x, 0, held(len))
}
