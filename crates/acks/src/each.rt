// CUBIC per newly acked packet, in order. 01 Acknowledgement (000) 6
ghost use Rattle.std.specs.Prelude.{◌≡◌};
ghost use Rattle.marks.specs.Marks.{newly_of};
ghost use Rattle.model.specs.Control.{control, ack_each};
ghost use Rattle.records.specs.View.{record_at};
ghost use Rattle.acks.specs.Each.{ack_one};
ghost use Rattle.acks.specs.Places.{places_of, flags_to, held_to};

use crate::places;
use arith::refusal::Refusal;
use arith::time::{Moment, Span};
use congestion::growth::packet_acked;
use marks::Flags;
use model::Congestion;
use records::memory::{CAPACITY, Word, Words, record_at, word_at};

// The record in slot k of space n, which a range holds: the controller learns of it if it stands.
#[tactic(auto, using(crate::proofs::Turns::one_marked, crate::proofs::Turns::one_stands))]
fn ack_one(
    m: &Words,
    n: u64,
    k: usize,
    g: Congestion,
    time: Moment,
    limited: bool,
    min_rtt: Span,
) -> Result<Congestion, Refusal>
    ensures { result ≡ ack_one time limited min_rtt (record_at m.now n k) g }
{
    if word_at(m, n, k, Word::Mark) != 0 {
        return Ok(g);
    }
    let r = record_at(m, n, k);
    packet_acked(g, time, r.time_sent, r.size, limited, min_rtt)
}

// The controller after the newly acked records of space n, at time; or the refusal. 000 on_packets_acked
#[tactic(auto, using(crate::proofs::Turns::each_end))]
pub fn ack_each<F: Flags>(
    m: &Words,
    n: u64,
    head: usize,
    len: usize,
    flags: &F,
    last: usize,
    g: Congestion,
    time: Moment,
    limited: bool,
    min_rtt: Span,
) -> Result<Congestion, Refusal>
    ensures { result ≡ control (ack_each time limited min_rtt (newly_of (flags_to (F.seen flags.now) (places_of len last)) (held_to m.now n head (places_of len last)))) g }
{
    let first = head % CAPACITY;
    let mut after = g;
    for i in 0..places(len, last) {
        if flags.is_set(i) {
            after = ack_one(m, n, first + i, after, time, limited, min_rtt)?;
        }
    }
    Ok(after)
}
