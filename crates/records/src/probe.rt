// The handles that a PTO sends again. 01 Timer and PTO (000)
ghost use Rattle.std.specs.Prelude.{◌≡◌, ◌%◌, min};
ghost use Rattle.model.specs.Numbers.{capacity};
ghost use Rattle.records.specs.View.{record_at, records_of};
ghost use Rattle.records.specs.Probes.{awaits_of, probes_of, StoredFrom};

use crate::memory::{CAPACITY, Queue, Word, Words, held, word_at};
use crate::queue::put;

// Whether the record in slot k of space n is of a data packet neither acked nor lost.
#[tactic(auto, using(crate::proofs::Handles::awaits_marked, crate::proofs::Handles::awaits_data))]
fn awaits(m: &Words, n: u64, k: usize) -> bool
    ensures { result ≡ awaits_of (record_at m.now n k) }
{
    word_at(m, n, k, Word::Mark) == 0 && word_at(m, n, k, Word::Flags) / 4 % 2 == 1
}

// Fills the PTO queue of space n, which is empty, with handles of the oldest data packets neither acked nor lost, and answers how many.
#[tactic(auto, using(crate::proofs::Handles::left_start, crate::proofs::Handles::left_none, crate::proofs::Handles::left_end))]
pub fn probe_handles(m: &mut Words, n: u64, head: usize, len: usize, probes: u64) -> usize
    ensures { StoredFrom m.old n 2 0 (probes_of probes (records_of m.old n (head % capacity) (min len capacity))) result m.new }
{
    let first = head % CAPACITY;
    let count = held(len);
    let mut left = probes;
    let mut stored = 0;
    for i in 0..count {
        if left == 0 {
            return stored;
        }
        if awaits(m, n, first + i) {
            let handle = word_at(m, n, first + i, Word::Handle);
            stored += put(m, n, Queue::LostFramesPto, stored, handle);
            left -= 1;
        }
    }
    stored
}
