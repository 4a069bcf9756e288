// The events of a connection's record, by plain numbers: the words are lent, the values go in and come back. One function for each event.
// A record that was never begun is refused with 2, and a refused event gives back the values that it got. No public function has a `requires`.
#![tactic(auto)]

use plain::Values;
use records::memory::Words;

pub mod ack;
pub mod begin;
pub mod discard;
pub mod readouts;
pub mod resize;
mod said;
pub mod sent;
pub mod take;
pub mod timeouts;

// The record that a host holds: the words of its records and queues, and everything else.
#[repr(C)]
#[derive(Clone, Copy)]
pub struct Connection {
    pub words: Words,
    pub values: Values,
}

// An event's answer in plain numbers, and the values after the event.
#[derive(Clone, Copy)]
pub struct Done<T> {
    pub answer: T,
    pub values: Values,
}

// The number of the refusal, with zeros beside it; or 0, with what came of the ack. C has no Result.
#[repr(C)]
#[derive(Clone, Copy)]
pub struct AckAnswer {
    pub refusal: u64,
    pub lost_packets: u64,
    pub lost_bytes: u64,
    pub acked_bytes: u64,
    pub spurious_losses: u64,
}

// The same of a timeout.
#[repr(C)]
#[derive(Clone, Copy)]
pub struct TimeoutAnswer {
    pub refusal: u64,
    pub lost_packets: u64,
    pub lost_bytes: u64,
}

// The same of a handle that is taken.
#[repr(C)]
#[derive(Clone, Copy)]
pub struct TakeAnswer {
    pub refusal: u64,
    pub handle: u64,
}
