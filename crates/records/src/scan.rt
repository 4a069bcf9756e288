// What the records of a space come to, read one after another.
ghost use Rattle.std.specs.Prelude.{◌≡◌, ◌%◌, min};
ghost use Rattle.arith.specs.Whole.{within};
ghost use Rattle.model.specs.Numbers.{capacity};
ghost use Rattle.model.specs.Connection.{outstanding};
ghost use Rattle.records.specs.View.{record_at, records_of, weight_of};

use crate::memory::{CAPACITY, Word, Words, held, word_at};
use arith::refusal::Refusal;
use arith::time::add_up;

// The bytes of the record in slot k of space n that are still out: its size if it is in flight and neither acked nor lost, else 0.
#[tactic(auto, using(crate::proofs::Bytes::weight_marked, crate::proofs::Bytes::weight_resting, crate::proofs::Bytes::weight_out))]
fn weight_at(m: &Words, n: u64, k: usize) -> u64
    ensures { result ≡ weight_of (record_at m.now n k) }
{
    if word_at(m, n, k, Word::Mark) == 0 && word_at(m, n, k, Word::Flags) / 2 % 2 == 1 {
        word_at(m, n, k, Word::Size)
    } else {
        0
    }
}

// The bytes in flight by the records of space n. In line in an event, each turn would write the whole state of a refusal. 01 Replay and the host: the audit's total
#[inline(never)]
#[tactic(auto, using(crate::proofs::Bytes::scan_start, crate::proofs::Bytes::scan_small, crate::proofs::Bytes::scan_on, crate::proofs::Bytes::scan_over))]
pub fn outstanding_bytes(m: &Words, n: u64, head: usize, len: usize) -> Result<u64, Refusal>
    ensures { result ≡ within (outstanding (records_of m.now n (head % capacity) (min len capacity))) }
{
    let first = head % CAPACITY;
    let count = held(len);
    let mut total = 0;
    for i in 0..count {
        total = add_up(total, weight_at(m, n, first + i))?;
    }
    Ok(total)
}
