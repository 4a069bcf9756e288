// How far the records of a space drain. 01 Acknowledgement (000) 2; 000 drain_acked_and_lost_packets
ghost use Rattle.std.specs.Prelude.{◌≡◌, ◌≤◌, ◌<◌, min};
ghost use Rattle.model.specs.Numbers.{capacity};
ghost use Rattle.model.specs.Sent.{may_leave};
ghost use Rattle.marks.specs.Marks.{mark_acked, settled_at};
ghost use Rattle.losses.specs.Drain.{leaves_by, drained_to};

use arith::time::{Moment, Span, passed};
use marks::{Flags, acked_mark};
use records::memory::{CAPACITY, Word, Words, held, time_lost, word_at};

// The mark at place i after step 1.
#[tactic(auto, using(crate::proofs::Turns::mark_round), unfolding(marks::specs::Marks::mark_acked))]
fn mark_acked<F: Flags>(m: &Words, n: u64, head: usize, flags: &F, i: usize) -> u64
    requires { i < capacity }
    ensures { result ≡ mark_acked m.now n head (F.seen flags.now) i }
{
    let mark = word_at(m, n, head % CAPACITY + i, Word::Mark);
    acked_mark(flags.is_set(i), mark)
}

// Whether a record with this mark may leave; one that stands is lost now where `lost` says so.
// A lost time decides alone, even if the record was acked later.
fn leaves(mark: u64, lost: bool, time: Moment, smoothed: Span) -> bool
    ensures { result ≡ leaves_by mark lost time smoothed }
{
    if mark == 0 {
        return lost && passed(time, smoothed, time);
    }
    match time_lost(mark) {
        None => mark % 2 == 1,
        Some(t) => passed(t, smoothed, time),
    }
}

// Whether the record at place i may leave, once step 1 and a detection that stops at place `stop` are done.
#[tactic(auto, unfolding(marks::specs::Marks::mark_settled, records::specs::View::record_by))]
fn may_leave<F: Flags>(
    m: &Words,
    n: u64,
    head: usize,
    flags: &F,
    i: usize,
    stop: usize,
    time: Moment,
    smoothed: Span,
) -> bool
    requires { i < capacity }
    ensures { result ≡ may_leave time smoothed (settled_at m.now n head (F.seen flags.now) stop time i) }
{
    leaves(mark_acked(m, n, head, flags, i), i < stop, time, smoothed)
}

// The place up to which records drain, from place `from` on: the first that may not leave, or the end.
#[tactic(auto, using(crate::proofs::Turns::drain_on, crate::proofs::Turns::drain_stop, crate::proofs::Turns::drain_end))]
pub fn drain<F: Flags>(
    m: &Words,
    n: u64,
    head: usize,
    len: usize,
    flags: &F,
    from: usize,
    stop: usize,
    time: Moment,
    smoothed: Span,
) -> usize
    ensures { result ≡ drained_to time smoothed (settled_at m.now n head (F.seen flags.now) stop time) (min from (min len capacity)) (min len capacity) }
{
    let count = held(len);
    for i in from.min(count)..count {
        if !may_leave(m, n, head, flags, i, stop, time, smoothed) {
            return i;
        }
    }
    count
}
