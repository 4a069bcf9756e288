// Loss detection as sums alone: no mark is set and no handle stored. 01 Lost or not; 000 detect_lost_packets
ghost use Rattle.std.specs.Prelude.{◌≡◌, ◌≤◌, ◌<◌, min, None};
ghost use Rattle.model.specs.Numbers.{capacity};
ghost use Rattle.model.specs.Sent.{standing};
ghost use Rattle.marks.specs.Marks.{acked_at};
ghost use Rattle.marks.specs.Survey.{lost_tally, weigh_probe, weigh_packet, loss_weighed, survives};
ghost use Rattle.losses.specs.Seek.{seek_from};

use arith::refusal::Refusal;
use arith::time::{add_up, later};
use estimate::loss::is_lost;
use marks::{Flags, LostTally, Stop, queued};
use model::{Judge, Sent};
use records::memory::{CAPACITY, Words, held, record_at};

// A lost PMTUD probe, which counts in neither lost packets nor lost bytes.
fn weigh_probe(r: Sent, t: LostTally) -> Result<LostTally, Refusal>
    ensures { result ≡ weigh_probe r t }
{
    if !r.in_flight {
        return Ok(t);
    }
    let probe_bytes = add_up(t.probe_bytes, r.size)?;
    Ok(LostTally {
        probe_bytes,
        in_flight: t.in_flight.saturating_sub(1),
        ..t
    })
}

// Any other lost packet.
fn weigh_packet(r: Sent, t: LostTally) -> Result<LostTally, Refusal>
    requires { t.packets ≤ capacity }
    ensures { result ≡ weigh_packet r t }
{
    let packets = t.packets + 1;
    if r.in_flight {
        let bytes = add_up(t.bytes, r.size)?;
        return Ok(LostTally {
            packets,
            bytes,
            in_flight: t.in_flight.saturating_sub(1),
            last: Some(r.time_sent),
            ..t
        });
    }
    Ok(LostTally { packets, ..t })
}

// One more lost record: its handle is queued unless 0.
#[tactic(auto, unfolding(marks::specs::Survey::loss_weighed))]
fn weigh_lost(r: Sent, t: LostTally) -> Result<LostTally, Refusal>
    requires { t.packets ≤ capacity }
    ensures { result ≡ loss_weighed r t }
{
    let queued = queued(r.handle, t.queued)?;
    let t = LostTally { queued, ..t };
    if r.is_pmtud_probe {
        weigh_probe(r, t)
    } else {
        weigh_packet(r, t)
    }
}

// The record at place i after step 1.
#[tactic(auto, using(crate::proofs::Turns::read_acked, crate::proofs::Turns::read_other), unfolding(model::specs::Sent::marked))]
fn acked_at<F: Flags>(m: &Words, n: u64, head: usize, flags: &F, i: usize) -> Sent
    requires { i < capacity }
    ensures { result ≡ acked_at m.now n head (F.seen flags.now) i }
{
    let mut r = record_at(m, n, head % CAPACITY + i);
    if flags.is_set(i) {
        r.acked = true;
    }
    r
}

// Neither acked nor lost.
fn stands(r: Sent) -> bool
    ensures { result ≡ standing r }
{
    !r.acked && r.time_lost.is_none()
}

// Nothing lost yet.
fn fresh(queued: u64, in_flight: u64) -> LostTally
    ensures { result ≡ lost_tally queued 0 0 0 in_flight None }
{
    LostTally {
        queued,
        packets: 0,
        bytes: 0,
        probe_bytes: 0,
        in_flight,
        last: None,
    }
}

// The first survivor, at a place: sent + delay is the space's loss time.
fn survive(j: Judge, place: usize, r: Sent, tally: LostTally) -> Result<Stop, Refusal>
    ensures { result ≡ survives j place r tally }
{
    let loss_time = Some(later(r.time_sent, j.delay)?);
    Ok(Stop {
        tally,
        place,
        loss_time,
    })
}

// What a loss detection from place `from` on comes to, where the lost queue holds `queued` handles and the space's in-flight count is `in_flight`.
// It stops above the largest, or at the first survivor.
#[tactic(auto, using(crate::proofs::Turns::seek_above, crate::proofs::Turns::seek_passed, crate::proofs::Turns::seek_survived, crate::proofs::Turns::seek_lost, crate::proofs::Turns::seek_past, crate::proofs::Turns::lost_packets))]
pub fn seek<F: Flags>(
    m: &Words,
    n: u64,
    head: usize,
    len: usize,
    flags: &F,
    from: usize,
    j: Judge,
    queued: u64,
    in_flight: u64,
) -> Result<Stop, Refusal>
    ensures { result ≡ seek_from j (acked_at m.now n head (F.seen flags.now)) (min from (min len capacity)) (min len capacity) queued in_flight }
{
    let count = held(len);
    let mut tally = fresh(queued, in_flight);
    for place in from.min(count)..count {
        let r = acked_at(m, n, head, flags, place);
        if j.largest < r.number {
            return Ok(Stop {
                tally,
                place,
                loss_time: None,
            });
        }
        if !stands(r) {
            continue;
        }
        if !is_lost(j, r) {
            return survive(j, place, r, tally);
        }
        tally = weigh_lost(r, tally)?;
    }
    Ok(Stop {
        tally,
        place: count,
        loss_time: None,
    })
}
