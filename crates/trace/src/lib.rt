// A trace's bytes read as events, and the lines that a replay prints, on slices. 01 'Replay and the host'.
// No public function has a `requires`; each claims its whole answer, for any bytes and any offset.
#![tactic(auto)]

use arith::time::Moment;
use model::{HandshakeStatus, Packet};

pub mod held;
pub mod line;
pub mod put;
pub mod read;
pub mod text;

// What the bodies of the trace's kinds say: a packet sent, an ack on the held ranges, a timeout, a discarded space.
#[derive(Clone, Copy)]
pub struct SentEvent {
    pub time: Moment,
    pub space: u64,
    pub packet: Packet,
    pub status: HandshakeStatus,
}

#[derive(Clone, Copy)]
pub struct AckEvent {
    pub time: Moment,
    pub space: u64,
    // microseconds
    pub delay: u64,
    pub status: HandshakeStatus,
    pub limited: bool,
    pub skipped: Option<u64>,
}

#[derive(Clone, Copy)]
pub struct TimeoutEvent {
    pub time: Moment,
    pub status: HandshakeStatus,
}

#[derive(Clone, Copy)]
pub struct DiscardEvent {
    pub time: Moment,
    pub space: u64,
    pub status: HandshakeStatus,
}

// The trace's kinds but ranges: a size change has the size, takes and pings the space.
#[derive(Clone, Copy)]
pub enum Event {
    Sent(SentEvent),
    Ack(AckEvent),
    Timeout(TimeoutEvent),
    Discard(DiscardEvent),
    Size(u64),
    TakeAcked(u64),
    TakeLost(u64),
    Ping(u64),
}

// A range of packet numbers, half-open.
#[derive(Clone, Copy)]
pub struct Range {
    pub start: u64,
    pub end: u64,
}

// What stands at an offset of a trace: its end, no known kind with a whole body, a range or an event.
#[derive(Clone, Copy)]
pub enum Found {
    End,
    Bad,
    Range(Range),
    Event(Event),
}
