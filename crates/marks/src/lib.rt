// What an acknowledgement and a loss detection are about to do to the records of a space, before anything is stored.
// A refusal may arise late in an event, so an event decides first, reading only, and stores when nothing can refuse any more.
#![tactic(auto)]

ghost use Rattle.std.specs.Prelude.{◌≡◌, ◌≤◌, ℕ, List, Bool, false};
ghost use Rattle.marks.specs.Marks.{acked_mark, flagged, of_bytes};
ghost use Rattle.marks.specs.Survey.{queued_of};

use arith::refusal::Refusal;

// At most 256 handles per queue. 01 The stage numbers
const QUEUE: u64 = 256;

// How many handles a queue of `count` holds with one more: a handle 0 is not queued. Refusal 6: the queue would pass 256 handles
#[tactic(auto, unfolding(crate::specs::Survey::queued_of))]
pub fn queued(handle: u64, count: u64) -> Result<u64, Refusal>
    ensures { result ≡ queued_of handle count }
{
    if handle == 0 {
        Ok(count)
    } else if count < QUEUE {
        Ok(count + 1)
    } else {
        Err(Refusal::Full)
    }
}

// A flag for each place from the front on: bools, or bytes of which 1 alone is a flag.
pub trait Flags {
    ghost seen: { Self → List Bool };

    // No flag stands past the last place.
    fn is_set(&self, place: usize) -> bool
        ensures { result ≡ flagged (seen self.now) place };
}

impl Flags for [bool; 256] {
    ghost seen = { λ flags. flags };

    fn is_set(&self, place: usize) -> bool {
        place < self.len() && self[place]
    }
}

impl Flags for [u8; 256] {
    ghost seen = { of_bytes };

    fn is_set(&self, place: usize) -> bool {
        place < self.len() && self[place] == 1
    }
}

// Which records the ranges hold, for each place from the front on, and the place after the last such record.
#[derive(Clone, Copy)]
pub struct Covered {
    pub flags: [bool; 256],
    pub last: usize,
    ghost past: { (i : ℕ) → last ≤ i → flagged flags i ≡ false },
}

// What step 1 of an acknowledgement comes to, beside the marks.
#[derive(Clone, Copy)]
pub struct Tally {
    // handles in the acked queue, with those that are to be queued
    pub queued: u64,
    // how many records are newly acked, and the place of the last one
    pub newly: u64,
    pub last: usize,
    // whether a newly acked packet is eliciting
    pub eliciting: bool,
    pub acked_bytes: u64,
    pub in_flight: u64,
    pub spurious: u64,
    pub distance: Option<u64>,
    pub spurious_in_flight: bool,
}

// What a loss detection comes to, beside the marks.
#[derive(Clone, Copy)]
pub struct LostTally {
    // handles in the queue of lost packets, with those that are to be queued
    pub queued: u64,
    pub packets: u64,
    pub bytes: u64,
    pub probe_bytes: u64,
    pub in_flight: u64,
    // when the last non-probe lost in flight was sent
    pub last: Option<arith::time::Moment>,
}

// A loss detection that ends: the place where the scan stops, and the space's loss time.
#[derive(Clone, Copy)]
pub struct Stop {
    pub tally: LostTally,
    pub place: usize,
    pub loss_time: Option<arith::time::Moment>,
}

// The mark of a record that a range holds, or not. 01 Acknowledgement (000) 1
pub fn acked_mark(flag: bool, mark: u64) -> u64
    ensures { result ≡ acked_mark flag mark }
{
    if flag { mark / 2 * 2 + 1 } else { mark }
}
