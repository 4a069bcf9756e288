// The loss detection timer and PTO. 01 Timer and PTO (000); RFC 9002 section 6.2.
ghost use Rattle.std.specs.Prelude.{◌≡◌};
ghost use Rattle.model.specs.Timer.{sooner, better, loss_time_and_space, pto_of, backoff, pto_backed, pto_application, pto_from};
ghost use Rattle.model.specs.Timer.{try_epoch, try_application, search, idle_space, pto_time_and_space, pto_timer, timer_of, probe_space};
ghost use Rattle.model.specs.Timer.{elicits, available};

use crate::loss::GRANULARITY;
use arith::refusal::Refusal;
use arith::time::{Moment, Span, add_spans, later, longer, scale};
use model::{Epoch, HandshakeStatus, Rtt, TimeAndSpace, TimerFacts};

// 2^32-1, the largest backoff, and the PTO count from which on it stands.
const MAX_BACKOFF: u64 = 4294967295;

const MAX_BACKOFF_COUNT: u64 = 32;

// Non-eliciting packets in a row after which an ack is elicited.
const MAX_OUTSTANDING_NON_ACK_ELICITING: u64 = 24;

// 2^64-1: cwnd_available while a space has probes.
const UNBOUNDED: u64 = u64::MAX;

// Whether a goes before b: an unset time goes before any set one. 01 Timer and PTO (000)
#[tactic(auto, unfolding(model::specs::Timer::sooner))]
pub fn sooner(a: Option<Moment>, b: Option<Moment>) -> bool
    ensures { result ≡ sooner a b }
{
    a < b
}

// The better of what stands and a later space's time. 01 Timer and PTO (000)
#[tactic(auto, unfolding(model::specs::Timer::better))]
pub fn better(best: TimeAndSpace, t: Option<Moment>, n: u64) -> TimeAndSpace
    ensures { result ≡ better best t n }
{
    match best.time {
        Some(_) => if sooner(t, best.time) {
            TimeAndSpace { time: t, space: n }
        } else {
            best
        },
        None => TimeAndSpace { time: t, space: n },
    }
}

// The loss time that goes before PTO, and its space. 01 Timer and PTO (000); 000 loss_time_and_space
#[tactic(auto, unfolding(model::specs::Timer::loss_time_and_space))]
pub fn loss_time_and_space(initial: Epoch, handshake: Epoch, application: Epoch) -> TimeAndSpace
    ensures { result ≡ loss_time_and_space initial handshake application }
{
    let standing = TimeAndSpace {
        time: initial.loss_time,
        space: 0,
    };
    let best = better(standing, handshake.loss_time, 1);
    better(best, application.loss_time, 2)
}

// Smoothed + max(4 rttvar, granularity). 01 Timer and PTO (000); 000 pto; RFC 9002 section 6.2.1
#[tactic(auto, unfolding(model::specs::Timer::pto_of))]
pub fn pto(r: Rtt) -> Result<Span, Refusal>
    ensures { result ≡ pto_of r }
{
    let v = scale(4, r.rttvar)?;
    add_spans(r.smoothed_rtt, longer(v, Span(GRANULARITY)))
}

// The lesser of 2^count and 2^32-1. 01 Timer and PTO (000); RFC 9002 section 6.2.1
#[tactic(auto, unfolding(model::specs::Timer::backoff))]
pub fn backoff(count: u64) -> u64
    ensures { result ≡ backoff count }
{
    if count < MAX_BACKOFF_COUNT {
        return 1 << count;
    }
    MAX_BACKOFF
}

// PTO, times the backoff. 000 pto_time_and_space
#[tactic(auto, unfolding(model::specs::Timer::pto_backed))]
fn pto_backed(f: TimerFacts) -> Result<Span, Refusal>
    ensures { result ≡ pto_backed f }
{
    let p = pto(f.rtt)?;
    scale(backoff(f.pto_count), p)
}

// Max ack delay, multiplied alike, added for Application. 000 pto_time_and_space; RFC 9002 section 6.2.1
#[tactic(auto, unfolding(model::specs::Timer::pto_application))]
fn pto_application(f: TimerFacts, duration: Span) -> Result<Span, Refusal>
    ensures { result ≡ pto_application f duration }
{
    let extra = scale(backoff(f.pto_count), f.rtt.max_ack_delay)?;
    add_spans(duration, extra)
}

// A space's time, from its last eliciting send in flight. 000 pto_time_and_space
#[tactic(auto, unfolding(model::specs::Timer::pto_from))]
fn pto_from(last: Option<Moment>, duration: Span) -> Result<Option<Moment>, Refusal>
    ensures { result ≡ pto_from last duration }
{
    let Some(sent) = last else {
        return Ok(None);
    };
    let m = later(sent, duration)?;
    Ok(Some(m))
}

// What stands after a space was tried, if it has packets in flight. 000 pto_time_and_space
#[tactic(auto, unfolding(model::specs::Timer::try_epoch))]
fn try_epoch(e: Epoch, n: u64, duration: Span, best: TimeAndSpace) -> Result<TimeAndSpace, Refusal>
    ensures { result ≡ try_epoch e n duration best }
{
    if e.in_flight_count == 0 {
        return Ok(best);
    }
    let t = pto_from(e.time_of_last_ack_eliciting_packet, duration)?;
    Ok(better(best, t, n))
}

// What stands after Application, which is tried only once the handshake is completed. 000 pto_time_and_space
#[tactic(auto, unfolding(model::specs::Timer::try_application))]
fn try_application(
    f: TimerFacts,
    duration: Span,
    best: TimeAndSpace,
) -> Result<TimeAndSpace, Refusal>
    ensures { result ≡ try_application f duration best }
{
    if f.application.in_flight_count == 0 || !f.status.completed {
        return Ok(best);
    }
    let longest = pto_application(f, duration)?;
    try_epoch(f.application, 2, longest, best)
}

// What stands after the spaces in order 0, 1, 2. 000 pto_time_and_space
#[tactic(auto, unfolding(model::specs::Timer::search))]
fn search(f: TimerFacts, duration: Span) -> Result<TimeAndSpace, Refusal>
    ensures { result ≡ search f duration }
{
    let none = TimeAndSpace {
        time: None,
        space: 0,
    };
    let a = try_epoch(f.initial, 0, duration, none)?;
    let b = try_epoch(f.handshake, 1, duration, a)?;
    try_application(f, duration, b)
}

// Handshake if its keys are held, else Initial. 000 pto_time_and_space
fn idle_space(s: HandshakeStatus) -> u64
    ensures { result ≡ idle_space s }
{
    if s.has_handshake_keys { 1 } else { 0 }
}

// When probes are due, and in which space. 01 Timer and PTO (000); 000 pto_time_and_space; RFC 9002 section 6.2.1
#[tactic(auto, unfolding(model::specs::Timer::pto_time_and_space))]
pub fn pto_time_and_space(f: TimerFacts) -> Result<TimeAndSpace, Refusal>
    ensures { result ≡ pto_time_and_space f }
{
    let duration = pto_backed(f)?;
    if f.bytes_in_flight != 0 {
        return search(f, duration);
    }
    let m = later(f.now, duration)?;
    Ok(TimeAndSpace {
        time: Some(m),
        space: idle_space(f.status),
    })
}

// Nothing in flight and peer verified: no timer; else PTO. 000 set_loss_detection_timer
#[tactic(auto, unfolding(model::specs::Timer::pto_timer))]
fn pto_timer(f: TimerFacts) -> Result<Option<Moment>, Refusal>
    ensures { result ≡ pto_timer f }
{
    if f.bytes_in_flight == 0 && f.status.peer_verified_address {
        return Ok(None);
    }
    let c = pto_time_and_space(f)?;
    Ok(c.time)
}

// What the timer is set to: a loss time goes before PTO. 01 Timer and PTO (000); 000 set_loss_detection_timer; RFC 9002 section A.8
#[tactic(auto, unfolding(model::specs::Timer::timer_of))]
pub fn set_loss_detection_timer(f: TimerFacts) -> Result<Option<Moment>, Refusal>
    ensures { result ≡ timer_of f }
{
    let earliest = loss_time_and_space(f.initial, f.handshake, f.application);
    match earliest.time {
        Some(_) => Ok(earliest.time),
        None => pto_timer(f),
    }
}

// The space that a timeout without a loss time grants probes. 01 Timer and PTO (000); 000 on_loss_detection_timeout
#[tactic(auto, unfolding(model::specs::Timer::probe_space))]
pub fn probe_space(f: TimerFacts) -> Result<u64, Refusal>
    ensures { result ≡ probe_space f }
{
    if f.bytes_in_flight == 0 {
        return Ok(idle_space(f.status));
    }
    let c = pto_time_and_space(f)?;
    Ok(c.space)
}

// Whether an ack is to be elicited. 01 Timer and PTO (000); 000 should_elicit_ack
#[tactic(auto, unfolding(model::specs::Timer::elicits))]
pub fn should_elicit_ack(probes: u64, run: u64) -> bool
    ensures { result ≡ elicits probes run }
{
    probes > 0 || run >= MAX_OUTSTANDING_NON_ACK_ELICITING
}

// Bytes that may be sent; no bound while any space has probes. 01 Timer and PTO (000); 000 cwnd_available; DIFFERENCES
#[tactic(auto, unfolding(model::specs::Timer::available))]
pub fn cwnd_available(p0: u64, p1: u64, p2: u64, window: u64, in_flight: u64) -> u64
    ensures { result ≡ available p0 p1 p2 window in_flight }
{
    if p0 > 0 || p1 > 0 || p2 > 0 {
        return UNBOUNDED;
    }
    window.saturating_sub(in_flight)
}
