// A timeout without a loss time: probes, and handles to be sent again. 01 Timer and PTO (000); RFC 9002 section 6.2.4
ghost use Rattle.std.specs.Prelude.{◌≡◌, ◌+◌, min};
ghost use Rattle.model.specs.Connection.{with_timer};
ghost use Rattle.model.specs.Events.{timeout_probe};
ghost use Rattle.records.specs.Probes.{StoredFrom};
ghost use Rattle.connection.specs.View.{connection_of, state_by, Does};
ghost use Rattle.timeout.specs.Probe.{raised, granted_state, plan_probe, queued_again, Probing};
ghost use Rattle.timeout.specs.Claim.{probe_at, probe_words};

use crate::shared_after;
use arith::refusal::Refusal;
use arith::time::Moment;
use connection::parts::{facts, normal, refused, space_at, with_probes, with_space};
use connection::{Answer, SpaceState, State};
use estimate::timer::{probe_space, set_loss_detection_timer};
use model::{HandshakeStatus, OnLossDetectionTimeoutOutcome, Shared};
use records::memory::{Words, full};
use records::probe::probe_handles;

// 2^32-1, the largest PTO count. 01 The stage numbers
const MAX_PTO_COUNT: u64 = 4294967295;

// What a timeout without a loss time has decided: the space, its probes, and what the spaces share then, the timer set.
#[derive(Clone, Copy)]
pub struct Probes {
    pub space: u64,
    pub probes: u64,
    pub shared: Shared,
}

// Probes go by the PTO count once it has risen. 01 Timer and PTO (000)
fn probes_for(count: u64) -> u64
    ensures { result ≡ min count 2 }
{
    count.min(2)
}

// What the spaces share at time, with this PTO count and this timer.
fn shared_raised(s: Shared, time: Moment, count: u64, timer: Option<Moment>) -> Shared
    ensures { result ≡ with_timer timer (raised time count s) }
{
    shared_after(s, time, count, s.bytes_in_flight, s.congestion, timer)
}

// The state with the PTO count risen to count and space n granted its probes, the timer and the queues as they were.
#[tactic(auto, unfolding(crate::specs::Probe::granted_state))]
fn granted(s: State, time: Moment, n: u64, count: u64) -> State
    ensures { result ≡ granted_state time n count s }
{
    let q = normal(space_at(s, n)).space;
    let p = with_probes(q, probes_for(count), q.lost_pto);
    with_space(
        s,
        n,
        p,
        shared_raised(s.shared, time, count, s.shared.loss_timer),
    )
}

// Which space gets how many probes, and what the timer is set to. Refusal 7. 01 Timer and PTO (000); 000 on_loss_detection_timeout
#[tactic(auto, using(crate::proofs::Probing::count_over, crate::proofs::Probing::count_fits), unfolding(crate::specs::Probe::plan_probe, crate::specs::Probe::plan_granted))]
fn plan_probe(s: State, time: Moment, status: HandshakeStatus) -> Result<Probes, Refusal>
    ensures { result ≡ plan_probe time status s }
{
    let n = probe_space(facts(s, time, status))?;
    if MAX_PTO_COUNT <= s.shared.pto_count {
        return Err(Refusal::TooLarge);
    }
    let count = s.shared.pto_count + 1;
    let timer = set_loss_detection_timer(facts(granted(s, time, n, count), time, status))?;
    Ok(Probes {
        space: n,
        probes: probes_for(count),
        shared: shared_raised(s.shared, time, count, timer),
    })
}

// The PTO queue of space n, whose state is q, is filled if it is empty; answers how many handles it then holds. 01 Timer and PTO (000)
fn queue_again(m: &mut Words, n: u64, q: SpaceState, probes: u64) -> usize
    ensures { StoredFrom m.old n 2 q.lost_pto (queued_again m.old n probes q) result m.new }
{
    if q.lost_pto != 0 {
        return q.lost_pto;
    }
    probe_handles(m, n, q.head, q.len, probes)
}

// What was decided is stored.
fn probe(m: &mut Words, s: State, p: Probes) -> State
    ensures { Probing m.old s p m.new result }
{
    let q = normal(space_at(s, p.space)).space;
    let lost_pto = queue_again(m, p.space, q, p.probes);
    with_space(s, p.space, with_probes(q, p.probes, lost_pto), p.shared)
}

// A timeout without a loss time. Refusal 7. 01 Timer and PTO (000); 000 on_loss_detection_timeout; RFC 9002 section 6.2.4
pub fn probe_timeout(
    m: &mut Words,
    s: State,
    time: Moment,
    status: HandshakeStatus,
) -> Answer<OnLossDetectionTimeoutOutcome>
    ensures { Does (timeout_probe time status (connection_of m.old s)) result.outcome m.old m.new s result.state (state_by s (probe_at time status s) 0) (probe_words m.old (probe_at time status s) s) }
{
    full(*m);
    match plan_probe(s, time, status) {
        Ok(p) => Answer {
            outcome: Ok(OnLossDetectionTimeoutOutcome {
                lost_packets: 0,
                lost_bytes: 0,
            }),
            state: probe(m, s, p),
        },
        Err(k) => refused(s, k),
    }
}
