// The words of a connection's memory: its sent records and its queues of handles, read and stored. specs/View.antt says where each lies.
ghost use Rattle.std.specs.Prelude.{◌≡◌, true, ◌≤◌, min, length, get_or, set};
ghost use Rattle.model.specs.Numbers.{capacity};
ghost use Rattle.records.specs.View.{all_words, at, word_place, queue_place, slot, flags_of, lost_by, record_at, store_record, store_mark, store_handle};

use arith::time::Moment;
use model::{Packet, Sent};

// At most 256 records per space and 256 handles per queue. 01 The stage numbers
pub const CAPACITY: usize = 256;
// Where a space's queues begin, and how many words a space has.
const QUEUES: usize = 6 * CAPACITY;

const SPACE_WORDS: usize = 9 * CAPACITY;

pub const WORDS: usize = 3 * SPACE_WORDS;

pub type Words = [u64; WORDS];

// The words of a record, in this order.
#[derive(Clone, Copy)]
pub enum Word {
    Number,
    TimeSent,
    Size,
    Flags,
    Handle,
    Mark,
}

const RECORD_WORDS: usize = 6;

impl Word {
    fn place(self) -> usize
        ensures { result ≡ word_place self }
    {
        match self {
            Word::Number => 0,
            Word::TimeSent => 1,
            Word::Size => 2,
            Word::Flags => 3,
            Word::Handle => 4,
            Word::Mark => 5,
        }
    }
}

// The queues of handles of a space, in this order: of acked packets, of packets lost by an ACK, of packets sent again on a PTO.
#[derive(Clone, Copy)]
pub enum Queue {
    AckedFrames,
    LostFramesAck,
    LostFramesPto,
}

// Its number, as readers and writers of queues take it: they take any number, modulo 3.
impl From<Queue> for u64 {
    ghost from_gives = { λ w n. n ≡ queue_place w };

    fn from(w: Queue) -> u64 {
        match w {
            Queue::AckedFrames => 0,
            Queue::LostFramesAck => 1,
            Queue::LostFramesPto => 2,
        }
    }
}

// A lent array does not tell its length; one by value does. The copy is optimised away.
pub fn full(m: Words) -> bool
    ensures { (result ≡ true) × (length m ≡ all_words) }
{
    true
}

// How many of len records or handles are held.
pub fn held(len: usize) -> usize
    ensures { result ≡ min len capacity }
{
    len.min(CAPACITY)
}

// Where a word of the record in slot k of space n lies.
fn at(n: u64, k: usize, word: Word) -> usize
    ensures { result ≡ at n k (word_place word) }
{
    SPACE_WORDS * ((n % 3) as usize) + (RECORD_WORDS * (k % CAPACITY) + word.place())
}

// Where place i of queue w of space n lies.
fn slot(n: u64, w: u64, i: usize) -> usize
    ensures { result ≡ slot n w i }
{
    SPACE_WORDS * ((n % 3) as usize) + (QUEUES + (CAPACITY * ((w % 3) as usize) + i % CAPACITY))
}

// A word of the record in slot k of space n.
pub fn word_at(m: &Words, n: u64, k: usize, word: Word) -> u64
    ensures { result ≡ get_or m.now (at n k (word_place word)) 0 }
{
    let place = at(n, k, word);
    m[place]
}

// When a record with this mark was declared lost.
pub fn time_lost(mark: u64) -> Option<Moment>
    ensures { result ≡ lost_by mark }
{
    (mark / 2).checked_sub(1).map(Moment)
}

// The record in slot k of space n.
#[tactic(auto, unfolding(crate::specs::View::record_at, crate::specs::View::record_by))]
pub fn record_at(m: &Words, n: u64, k: usize) -> Sent
    ensures { result ≡ record_at m.now n k }
{
    let flags = word_at(m, n, k, Word::Flags);
    let mark = word_at(m, n, k, Word::Mark);
    Sent {
        number: word_at(m, n, k, Word::Number),
        time_sent: Moment(word_at(m, n, k, Word::TimeSent)),
        size: word_at(m, n, k, Word::Size),
        ack_eliciting: flags % 2 == 1,
        in_flight: flags / 2 % 2 == 1,
        has_data: flags / 4 % 2 == 1,
        is_pmtud_probe: flags / 8 % 2 == 1,
        handle: word_at(m, n, k, Word::Handle),
        acked: mark % 2 == 1,
        time_lost: time_lost(mark),
    }
}

fn flags_of(p: Packet) -> u64
    ensures { result ≡ flags_of p }
{
    u64::from(p.ack_eliciting)
        + 2 * u64::from(p.in_flight)
        + 4 * u64::from(p.has_data)
        + 8 * u64::from(p.is_pmtud_probe)
}

// A word of the record in slot k of space n becomes x.
fn store_word(m: &mut Words, n: u64, k: usize, word: Word, x: u64)
    ensures { m.new ≡ set m.old (at n k (word_place word)) x }
{
    m[at(n, k, word)] = x;
}

// A packet that is sent at time takes slot k of space n.
#[tactic(auto, unfolding(crate::specs::View::store_record))]
pub fn store_record(m: &mut Words, n: u64, k: usize, time: Moment, p: Packet)
    ensures { m.new ≡ store_record m.old n k time p }
{
    store_word(m, n, k, Word::Number, p.number);
    store_word(m, n, k, Word::TimeSent, time.0);
    store_word(m, n, k, Word::Size, p.size);
    store_word(m, n, k, Word::Flags, flags_of(p));
    store_word(m, n, k, Word::Handle, p.handle);
    store_word(m, n, k, Word::Mark, 0);
}

// The record in slot k of space n gets a mark.
pub fn store_mark(m: &mut Words, n: u64, k: usize, mark: u64)
    ensures { m.new ≡ store_mark m.old n k mark }
{
    store_word(m, n, k, Word::Mark, mark);
}

// The handle at place i of queue w of space n.
pub fn handle_at(m: &Words, n: u64, w: u64, i: usize) -> u64
    ensures { result ≡ get_or m.now (slot n w i) 0 }
{
    m[slot(n, w, i)]
}

pub fn store_handle(m: &mut Words, n: u64, w: u64, i: usize, handle: u64)
    ensures { m.new ≡ store_handle m.old n w i handle }
{
    m[slot(n, w, i)] = handle;
}
