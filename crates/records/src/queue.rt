// A queue of handles, last in first out.
ghost use Rattle.std.specs.Prelude.{◌≡◌};
ghost use Rattle.model.specs.Sent.{newest};
ghost use Rattle.records.specs.View.{queue_of, queue_place};
ghost use Rattle.records.specs.Probes.{Put};

use crate::memory::{Queue, Words, handle_at, store_handle};

// What a taker gets of queue w of space n, which holds len handles: the newest, or 0. 01 Timer and PTO (000); refusals
#[tactic(auto, using(crate::proofs::Laws::newest_none, crate::proofs::Laws::newest_some))]
pub fn newest_handle(m: &Words, n: u64, w: u64, len: usize) -> u64
    ensures { result ≡ newest (queue_of m.now n w len) }
{
    if len == 0 {
        0
    } else {
        handle_at(m, n, w, len - 1)
    }
}

// A handle goes to place i of queue w of space n, unless it is 0; how many are stored. 01 Acknowledgement (000) 1
#[tactic(auto, using(crate::proofs::Handles::put_none, crate::proofs::Handles::put_one))]
pub fn put(m: &mut Words, n: u64, w: Queue, i: usize, handle: u64) -> usize
    ensures { Put m.old n (queue_place w) i handle result m.new }
{
    if handle == 0 {
        return 0;
    }
    store_handle(m, n, u64::from(w), i, handle);
    1
}
