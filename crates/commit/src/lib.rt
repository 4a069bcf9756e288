// What an event has decided is stored: the marks of its records, and the handles of the packets that are newly acked or lost.
// Nothing here can refuse: an event that comes so far is accepted.
#![tactic(auto)]

ghost use Rattle.std.specs.Prelude.{◌≡◌, ◌+◌, ◌*◌, ◌≤◌, min, max, eqb, ltb};
ghost use Rattle.arith.specs.Whole.{limit};
ghost use Rattle.model.specs.Numbers.{capacity};
ghost use Rattle.records.specs.Probes.{StoredFrom};
ghost use Rattle.records.specs.View.{queue_place};
ghost use Rattle.commit.specs.Commit.{Committed};
ghost use Rattle.commit.specs.Turn.{entry, remark, stamped, is_new, is_gone, Turned};

use arith::time::{LIMIT, Moment};
use marks::{Flags, acked_mark};
use records::memory::{CAPACITY, Queue, Word, Words, held, store_mark, word_at};
use records::queue::put;

// How many handles the queues of the acked and of the lost hold.
#[derive(Clone, Copy)]
pub struct Queues {
    pub acked: usize,
    pub lost: usize,
}

// The places that an event touches beside those in its ranges, counted from the front: its detection went from place from to place stop,
// and it drained the places before keep, whose records keep the words they have.
#[derive(Clone, Copy)]
pub struct Touched {
    pub from: usize,
    pub stop: usize,
    pub keep: usize,
}

// The mark of a record that a detection passes over, or not. 01 Lost or not
fn lost_mark(i: usize, stop: usize, stamp: u64, mark: u64) -> u64
    ensures { result ≡ stamped (ltb i stop) stamp mark }
{
    if i < stop && mark == 0 { stamp } else { mark }
}

// Whether a record is newly acked: in the ranges, neither acked nor lost before.
fn is_newly(flag: bool, mark: u64) -> bool
    ensures { result ≡ is_new flag mark }
{
    flag && mark == 0
}

// Whether a detection loses the record at place i, with this mark after step 1.
fn is_gone(i: usize, from: usize, stop: usize, mark: u64) -> bool
    ensures { result ≡ is_gone i from stop mark }
{
    from <= i && i < stop && mark == 0
}

// A handle that is to be queued goes to place i of queue w, unless it is 0; the place after it. 01 Acknowledgement (000) 1
#[tactic(auto, unfolding(records::specs::View::store_handles))]
fn store_entry(m: &mut Words, n: u64, w: Queue, i: usize, chosen: bool, handle: u64) -> usize
    requires { i ≤ 512 }
    ensures { StoredFrom m.old n (queue_place w) i (entry chosen handle) result m.new }
{
    if chosen {
        i + put(m, n, w, i, handle)
    } else {
        i
    }
}

// The record in slot k of space n, at place i from the front, is stored as the event leaves it; stamp is the mark of one that is lost now.
#[tactic(auto, using(crate::proofs::Turns::turn_made))]
fn settle(
    m: &mut Words,
    n: u64,
    k: usize,
    i: usize,
    flag: bool,
    t: Touched,
    stamp: u64,
    q: Queues,
) -> Queues
    requires { (q.acked ≤ 512) × (q.lost ≤ 512) }
    ensures { Turned m.old n k i flag t.from t.stop t.keep stamp q m.new result }
{
    let mark = word_at(m, n, k, Word::Mark);
    let handle = word_at(m, n, k, Word::Handle);
    let acked = acked_mark(flag, mark);
    let settled = lost_mark(i, t.stop, stamp, acked);
    let newly = is_newly(flag, mark);
    let gone = is_gone(i, t.from, t.stop, acked);
    if t.keep <= i {
        store_mark(m, n, k, settled);
    }
    Queues {
        acked: store_entry(m, n, Queue::AckedFrames, q.acked, newly, handle),
        lost: store_entry(m, n, Queue::LostFramesAck, q.lost, gone, handle),
    }
}

// The mark of a record that is lost at time.
fn stamp_of(time: Moment) -> u64
    ensures { result ≡ 2 * (min time.0 limit + 1) }
{
    2 * (time.0.min(LIMIT) + 1)
}

// An event on space n is stored, whose ranges hold the flagged records, all before place last. The handles of the newly acked go to their queue from
// place q.acked on, those of the lost to theirs from place q.lost on. 01 Acknowledgement (000) 1 and 2, Lost or not
pub fn commit<F: Flags>(
    m: &mut Words,
    n: u64,
    head: usize,
    len: usize,
    flags: &F,
    last: usize,
    t: Touched,
    time: Moment,
    q: Queues,
) -> Queues
    ensures { Committed m.old n head len (F.seen flags.now) last t.from t.stop t.keep time q.acked q.lost m.new result }
{
    let first = head % CAPACITY;
    let count = last.max(t.stop).min(held(len));
    let stamp = stamp_of(time);
    let mut after = Queues {
        acked: held(q.acked),
        lost: held(q.lost),
    };
    for i in 0..count {
        after = settle(m, n, first + i, i, flags.is_set(i), t, stamp, after);
    }
    after
}
