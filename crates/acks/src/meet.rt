// Step 1 over the records that the ranges hold, oldest first: its sums, or the refusal that it reaches first. 01 Acknowledgement (000) 1
ghost use Rattle.std.specs.Prelude.{◌≡◌, true, ◌<◌};
ghost use Rattle.marks.specs.Survey.{bytes_weighed, weigh_standing, weigh_lost, weighed, survey};
ghost use Rattle.model.specs.Numbers.{capacity};
ghost use Rattle.acks.specs.Places.{places_of, flags_to, held_to};
ghost use Rattle.acks.specs.Fitted.{fit, fitted, fresh, Room};

use crate::places;
use arith::refusal::Refusal;
use arith::time::add_up;
use marks::{Flags, Tally, queued};
use model::Sent;
use records::memory::{CAPACITY, Words, record_at};

// A lost record that a range holds: counted as spurious. The first sets distance = largest - number + 1.
fn weigh_lost(largest: u64, r: Sent, t: Tally) -> Tally
    requires { Room t }
    ensures { result ≡ fit (weigh_lost largest r t) }
{
    Tally {
        spurious: t.spurious + 1,
        distance: t
            .distance
            .or(Some(largest.saturating_sub(r.number).saturating_add(1))),
        spurious_in_flight: t.spurious_in_flight || r.in_flight,
        ..t
    }
}

// If in flight, its size is added to the acked bytes, and it leaves the in-flight count. Refusal 7: the bytes
fn weigh_bytes(r: Sent, t: Tally) -> Result<Tally, Refusal>
    ensures { result ≡ bytes_weighed r t }
{
    if !r.in_flight {
        return Ok(t);
    }
    let acked_bytes = add_up(t.acked_bytes, r.size)?;
    Ok(Tally {
        acked_bytes,
        in_flight: t.in_flight.saturating_sub(1),
        ..t
    })
}

// A standing record that a range holds is newly acked: its handle is queued unless 0.
fn weigh_standing(i: usize, r: Sent, t: Tally) -> Result<Tally, Refusal>
    requires { t.newly < capacity }
    ensures { result ≡ weigh_standing i r t }
{
    let queued = queued(r.handle, t.queued)?;
    weigh_bytes(
        r,
        Tally {
            queued,
            newly: t.newly + 1,
            last: i,
            eliciting: t.eliciting || r.ack_eliciting,
            ..t
        },
    )
}

// The record at place i, which a range holds: already acked, lost, or standing.
#[tactic(auto, using(crate::proofs::Fitting::meets_standing), unfolding(marks::specs::Survey::weighed, marks::specs::Survey::weigh_by))]
fn meet(largest: u64, i: usize, r: Sent, t: Tally) -> Result<Tally, Refusal>
    requires { Room t }
    ensures { result ≡ fitted (weighed true largest i r t) }
{
    if r.acked {
        return Ok(t);
    }
    match r.time_lost {
        Some(_) => Ok(weigh_lost(largest, r, t)),
        None => weigh_standing(i, r, t),
    }
}

// What step 1 comes to over the records of space n that are flagged. queued: handles in the acked queue; in_flight: the space's count. 000 on_ack_received
#[tactic(auto, using(crate::proofs::Fitting::meeting_none, crate::proofs::Fitting::meeting_room, crate::proofs::Fitting::meeting_end))]
pub fn meet_all<F: Flags>(
    m: &Words,
    n: u64,
    head: usize,
    len: usize,
    flags: &F,
    last: usize,
    largest: u64,
    queued: u64,
    in_flight: u64,
) -> Result<Tally, Refusal>
    ensures { result ≡ fitted (survey largest 0 (flags_to (F.seen flags.now) (places_of len last)) (held_to m.now n head (places_of len last)) (fresh queued in_flight)) }
{
    let first = head % CAPACITY;
    let mut t = Tally {
        queued,
        newly: 0,
        last: 0,
        eliciting: false,
        acked_bytes: 0,
        in_flight,
        spurious: 0,
        distance: None,
        spurious_in_flight: false,
    };
    for i in 0..places(len, last) {
        if flags.is_set(i) {
            t = meet(largest, i, record_at(m, n, first + i), t)?;
        }
    }
    Ok(t)
}
