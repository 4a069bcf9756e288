// What is read of a record and is no field of it. 01 Timer and PTO (000).
ghost use Rattle.std.specs.Prelude.{◌≡◌, List, ℕ};
ghost use Rattle.connection.specs.Readouts.{should_elicit_ack_of, has_lost_frames_of};
ghost use Rattle.connection.specs.View.{connection_of};
ghost use Rattle.serve.specs.Record.{record_of, stands_for};
ghost use Rattle.serve.specs.Readouts.{of_spaces, readouts_of};

use arith::time::Span;
use connection::State;
use connection::readout::{cwnd_available, has_lost_frames, pto, should_elicit_ack};
use plain::Values;

// A number for each space; 1 for yes.
#[repr(C)]
#[derive(Clone, Copy)]
pub struct OfSpaces {
    pub initial: u64,
    pub handshake: u64,
    pub application: u64,
}

// Bytes that may be sent; the PTO in nanoseconds, or that it is too large (C has no Result); whether to elicit an ack, and whether a lost handle waits.
#[repr(C)]
#[derive(Clone, Copy)]
pub struct Readouts {
    pub cwnd_available: u64,
    pub pto_is_too_large: u64,
    pub pto: u64,
    pub should_elicit_ack: OfSpaces,
    pub has_lost_frames: OfSpaces,
}

fn elicits(s: State) -> OfSpaces
    ensures { (m : List ℕ) → result ≡ of_spaces should_elicit_ack_of (connection_of m s) }
{
    OfSpaces {
        initial: u64::from(should_elicit_ack(s, 0)),
        handshake: u64::from(should_elicit_ack(s, 1)),
        application: u64::from(should_elicit_ack(s, 2)),
    }
}

fn lost_waiting(s: State) -> OfSpaces
    ensures { (m : List ℕ) → result ≡ of_spaces has_lost_frames_of (connection_of m s) }
{
    OfSpaces {
        initial: u64::from(has_lost_frames(s, 0)),
        handshake: u64::from(has_lost_frames(s, 1)),
        application: u64::from(has_lost_frames(s, 2)),
    }
}

// The read-outs of a record with these values, whatever its words. 000 cwnd_available, pto, should_elicit_ack, has_lost_frames
#[tactic(auto, unfolding(crate::specs::Readouts::readouts_of))]
pub fn read(v: Values) -> Readouts
    ensures { (m : List ℕ) → result ≡ readouts_of (stands_for (record_of m v)) }
{
    let s = State::from(v);
    let pto = pto(s);
    Readouts {
        cwnd_available: cwnd_available(s),
        pto_is_too_large: u64::from(pto.is_err()),
        pto: pto.unwrap_or(Span(0)).0,
        should_elicit_ack: elicits(s),
        has_lost_frames: lost_waiting(s),
    }
}
