// The parts of a state: its spaces, and what the timer goes by.
ghost use Rattle.std.specs.Prelude.{◌≡◌, ◌-◌};
ghost use Rattle.model.specs.Numbers.{on_clock};
ghost use Rattle.model.specs.Timer.{timer_of};
ghost use Rattle.connection.specs.View.{normal_of, space_state_at, with_space_state};
ghost use Rattle.connection.specs.Steps.{probed_space, facts_state, armed, timed_state};
ghost use Rattle.connection.specs.Answers.{refused_by, settled_by};

use crate::{Answer, Normal, SpaceState, State};
use arith::refusal::Refusal;
use arith::time::Moment;
use estimate::timer::set_loss_detection_timer;
use front::clock::on_clock;
use model::{Epoch, HandshakeStatus, Shared, TimerFacts};
use records::memory::{CAPACITY, held};

// The same space, with its counts in their ranges.
#[tactic(auto, unfolding(crate::specs::View::normal_of))]
pub fn normal(s: SpaceState) -> Normal
    ensures { result.space ≡ normal_of s }
{
    Normal {
        space: SpaceState {
            head: s.head % CAPACITY,
            len: held(s.len),
            acked: held(s.acked),
            lost_ack: held(s.lost_ack),
            lost_pto: held(s.lost_pto),
            ..s
        },
    }
}

// Space n; any number past 1 names Application. A space goes by its number: refusal 2 is for all the other numbers.
#[tactic(auto, unfolding(crate::specs::View::space_state_at))]
pub fn space_at(s: State, n: u64) -> SpaceState
    ensures { result ≡ space_state_at n s }
{
    match n {
        0 => s.initial,
        1 => s.handshake,
        _ => s.application,
    }
}

// The state with another space n, and with other values beside the spaces.
#[tactic(auto, unfolding(crate::specs::View::with_space_state))]
pub fn with_space(s: State, n: u64, p: SpaceState, shared: Shared) -> State
    ensures { result ≡ with_space_state n p shared s }
{
    if n == 0 {
        return State {
            initial: p,
            shared,
            ..s
        };
    }
    if n == 1 {
        return State {
            handshake: p,
            shared,
            ..s
        };
    }
    State {
        application: p,
        shared,
        ..s
    }
}

// The space with other probes and so many handles in its PTO queue.
#[tactic(auto, unfolding(crate::specs::Steps::probed_space))]
pub fn with_probes(p: SpaceState, probes: u64, lost_pto: usize) -> SpaceState
    ensures { result ≡ probed_space probes lost_pto p }
{
    SpaceState {
        lost_pto,
        epoch: Epoch {
            loss_probes: probes,
            ..p.epoch
        },
        ..p
    }
}

// What the timer goes by.
#[tactic(auto, unfolding(crate::specs::Steps::facts_state))]
pub fn facts(s: State, now: Moment, status: HandshakeStatus) -> TimerFacts
    ensures { result ≡ facts_state now status s }
{
    TimerFacts {
        now,
        status,
        rtt: s.shared.rtt,
        pto_count: s.shared.pto_count,
        bytes_in_flight: s.shared.bytes_in_flight,
        initial: s.initial.epoch,
        handshake: s.handshake.epoch,
        application: s.application.epoch,
    }
}

// The state with its timer at t.
#[tactic(auto, unfolding(crate::specs::Steps::armed))]
pub(crate) fn with_timer(s: State, t: Option<Moment>) -> State
    ensures { result ≡ armed t s }
{
    State {
        shared: Shared {
            loss_timer: t,
            ..s.shared
        },
        ..s
    }
}

// A state's timer, set anew. Its answer holds no state: room for one would be cleared before each event that asks. 000 set_loss_detection_timer
#[inline(never)]
pub(crate) fn timer(
    s: State,
    now: Moment,
    status: HandshakeStatus,
) -> Result<Option<Moment>, Refusal>
    ensures { result ≡ timer_of (facts_state now status s) }
{
    set_loss_detection_timer(facts(s, now, status))
}

// The state with its timer set anew. 01 Timer and PTO (000); 000 set_loss_detection_timer
#[tactic(auto, unfolding(crate::specs::Steps::timed_state))]
pub fn timed(s: State, now: Moment, status: HandshakeStatus) -> Result<State, Refusal>
    ensures { result ≡ timed_state now status s }
{
    let t = set_loss_detection_timer(facts(s, now, status))?;
    Ok(with_timer(s, t))
}

// The answer of an event that refusal k turns down.
pub fn refused<T>(s: State, k: Refusal) -> Answer<T>
    ensures { result ≡ refused_by k s }
{
    Answer {
        outcome: Err(k),
        state: s,
    }
}

// The answer of an event that decides over the state alone: the state that it comes to, or the one before.
pub fn settled(s: State, decided: Result<State, Refusal>) -> Answer<()>
    ensures { result ≡ settled_by s decided }
{
    match decided {
        Ok(t) => Answer {
            outcome: Ok(()),
            state: t,
        },
        Err(k) => refused(s, k),
    }
}

// Whether refusal 1 spares a moment, after the clock of a state. 01 The stage numbers
#[tactic(auto, unfolding(model::specs::Numbers::on_clock))]
pub fn in_time(s: State, now: Moment) -> bool
    ensures { result ≡ on_clock s.shared.clock now }
{
    on_clock(s.shared.clock, now)
}
