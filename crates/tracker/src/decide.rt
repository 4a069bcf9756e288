// What an acknowledgement decides, read only; nothing is stored yet. 01 Acknowledgement (000); 000 on_ack_received
ghost use Rattle.std.specs.Prelude.{◌≡◌, ◌≤◌};
ghost use Rattle.model.specs.Control.{control};
ghost use Rattle.model.specs.Ranges.{largest_for};
ghost use Rattle.tracker.specs.Plan.{moves_of, plan_nothing, plan_timed, plan_moved, plan_some, plan_met, plan_ack};

use crate::control::{acked_each, after_losses, forgiven};
use crate::detect::{or_zero, plan_losses};
use crate::steps::{
    bytes_left, epoch_acked, kept_space, outcome_of, reorder, sampled_rtt, shared_acked,
    shared_nothing, shared_timed, space_planned, stored_largest,
};
use crate::{Losses, Plan, Received};
use acks::meet::meet_all;
use arith::refusal::Refusal;
use arith::time::{Moment, Span};
use connection::parts::{facts, with_space};
use connection::{Normal, State};
use estimate::timer::set_loss_detection_timer;
use losses::drain::drain;
use marks::{Covered, Tally};
use model::{Congestion, Reordering, Rtt, Sent, Shared};
use records::memory::{CAPACITY, Words, record_at};
use records::ranges::last_end;

// Nothing newly acked: four zeros, even after spurious losses. 01 Acknowledgement (000) 4
#[tactic(auto, unfolding(crate::specs::Plan::plan_nothing))]
fn plan_nothing(
    q: Normal,
    time: Moment,
    t: Tally,
    o: Reordering,
    from: usize,
    s: Shared,
) -> Result<Plan, Refusal>
    requires { from ≤ q.space.len }
    ensures { result ≡ plan_nothing q.space time t o from s }
{
    let space = kept_space(
        q,
        from,
        t.queued,
        q.space.lost_ack as u64,
        epoch_acked(
            q.space.epoch,
            t.in_flight,
            q.space.epoch.largest_acked_packet,
        ),
    );
    let g = forgiven(s.congestion, t.spurious_in_flight);
    Ok(Plan {
        space,
        shared: shared_nothing(s, time, o, g),
        outcome: outcome_of(0, 0, 0, 0),
        from,
        stop: from,
        keep: from,
    })
}

// The controller after the ack: rollback, losses, then each newly acked packet. 01 Acknowledgement (000) 3 and 6
fn control_ack(
    m: &Words,
    n: u64,
    q: Normal,
    covered: &Covered,
    a: Received,
    min_rtt: Span,
    t: Tally,
    l: Losses,
    g: Congestion,
) -> Result<Congestion, Refusal>
    ensures { result ≡ control (moves_of m.now n q.space covered.now.flags a.time a.limited min_rtt t l) g }
{
    let h = after_losses(forgiven(g, t.spurious_in_flight), a.time, l.tally)?;
    acked_each(m, n, q, covered, h, a.time, a.limited, min_rtt)
}

// PTO count 0, the timer and the answer. 01 Acknowledgement (000) 6
#[tactic(auto, unfolding(crate::specs::Plan::plan_timed))]
fn plan_timed(
    n: u64,
    q: Normal,
    a: Received,
    rtt: Rtt,
    o: Reordering,
    t: Tally,
    largest: Option<u64>,
    l: Losses,
    from: usize,
    g: Congestion,
    s: State,
) -> Result<Plan, Refusal>
    requires { l.keep ≤ q.space.len }
    ensures { result ≡ plan_timed n q.space a.time a.status rtt o t largest l from g s }
{
    let space = space_planned(q, t, largest, l);
    let bytes = bytes_left(s.shared.bytes_in_flight, l.tally, t.acked_bytes);
    let shared = shared_acked(s.shared, a.time, rtt, o, bytes, g);
    let timer = set_loss_detection_timer(facts(with_space(s, n, space, shared), a.time, a.status))?;
    Ok(Plan {
        space,
        shared: shared_timed(shared, timer),
        outcome: outcome_of(l.tally.packets, l.tally.bytes, t.acked_bytes, t.spurious),
        from,
        stop: l.stop,
        keep: l.keep,
    })
}

// Step 6 once the losses are known.
fn plan_moved(
    m: &Words,
    n: u64,
    q: Normal,
    covered: &Covered,
    a: Received,
    rtt: Rtt,
    o: Reordering,
    t: Tally,
    largest: Option<u64>,
    l: Losses,
    from: usize,
    s: State,
) -> Result<Plan, Refusal>
    requires { l.keep ≤ q.space.len }
    ensures { result ≡ plan_moved m.now n q.space covered.now.flags a.time a.status a.limited rtt o t largest l from s }
{
    let g = control_ack(m, n, q, covered, a, rtt.min_rtt, t, l, s.shared.congestion)?;
    plan_timed(n, q, a, rtt, o, t, largest, l, from, g, s)
}

// Some newly acked, the largest of which is r. 01 Acknowledgement (000) 5 and 6
#[tactic(auto, unfolding(crate::specs::Plan::plan_some))]
fn plan_some(
    m: &Words,
    n: u64,
    q: Normal,
    covered: &Covered,
    a: Received,
    t: Tally,
    r: Sent,
    o: Reordering,
    from: usize,
    s: State,
) -> Result<Plan, Refusal>
    requires { from ≤ q.space.len }
    ensures { result ≡ plan_some m.now n q.space covered.now.flags a.time a.delay a.status a.limited t r o from s }
{
    let old = q.space.epoch.largest_acked_packet;
    let rtt = sampled_rtt(a.time, a.delay, a.status, old, r, t.eliciting, s.shared.rtt)?;
    let largest = Some(stored_largest(old, r));
    let l = plan_losses(
        m,
        n,
        q,
        &covered.flags,
        a.time,
        rtt,
        o,
        largest,
        t.in_flight,
        from,
    )?;
    plan_moved(m, n, q, covered, a, rtt, o, t, largest, l, from, s)
}

// Steps 2 to 6. The drain goes by the smoothed RTT from before the sample. 01 Acknowledgement (000) 2
fn plan_met(
    m: &Words,
    n: u64,
    q: Normal,
    covered: &Covered,
    a: Received,
    s: State,
    t: Tally,
) -> Result<Plan, Refusal>
    ensures { result ≡ plan_met m.now n q.space covered.now.flags a.time a.delay a.status a.limited s t }
{
    let o = reorder(t.distance, t.spurious, s.shared.reordering)?;
    let from = drain(
        m,
        n,
        q.space.head,
        q.space.len,
        &covered.flags,
        0,
        0,
        a.time,
        s.shared.rtt.smoothed_rtt,
    );
    if t.newly == 0 {
        return plan_nothing(q, a.time, t, o, from, s.shared);
    }
    let r = record_at(m, n, q.space.head + t.last % CAPACITY);
    plan_some(m, n, q, covered, a, t, r, o, from, s)
}

// The largest for the spurious test. 01 Acknowledgement (000) 1
#[tactic(auto, unfolding(model::specs::Ranges::largest_for))]
fn largest_for(stored: Option<u64>, words: &[u64]) -> u64
    ensures { result ≡ largest_for stored words.now }
{
    or_zero(stored).max(last_end(words).saturating_sub(1))
}

// Steps 1 to 6.
#[tactic(auto, unfolding(crate::specs::Plan::plan_ack))]
pub(crate) fn plan_ack(
    m: &Words,
    n: u64,
    q: Normal,
    covered: &Covered,
    words: &[u64],
    a: Received,
    s: State,
) -> Result<Plan, Refusal>
    ensures { result ≡ plan_ack m.now n q.space covered.now.flags a.time words.now a.delay a.status a.limited s }
{
    let largest = largest_for(q.space.epoch.largest_acked_packet, words);
    let t = meet_all(
        m,
        n,
        q.space.head,
        q.space.len,
        &covered.flags,
        covered.last,
        largest,
        q.space.acked as u64,
        q.space.epoch.in_flight_count,
    )?;
    plan_met(m, n, q, covered, a, s, t)
}
