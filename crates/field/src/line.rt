// The line of program inspect, written into a lent buffer from a place on; it answers the place after. 2,048 bytes hold any line.
ghost use Rattle.std.specs.Prelude.{List, ◌≡◌, ℕ, replicate};
ghost use Rattle.model.specs.Run.{refusal_of};
ghost use Rattle.connection.specs.View.{connection_of};
ghost use Rattle.trace.specs.Put.{Put};
ghost use Rattle.play.specs.Answers.{answered_says};
ghost use Rattle.field.specs.Inspect.{fields_text, spaces_words, inspected};

use crate::answer::put_told;
use crate::shared::put_shared;
use crate::space::put_space;
use arith::refusal::Refusal;
use connection::State;
use connection::readout::cwnd_available;
use model::Shared;
use play::Told;
use play::answers::refusal_number;
use trace::put::{put_byte, put_shown};

// A buffer of zeros that any line fits into.
pub fn blank() -> [u8; 2048]
    ensures { result ≡ replicate 2048 0 }
{
    [0; 2048]
}

// Replay's five fields.
#[tactic(auto, unfolding(crate::specs::Inspect::fields_text))]
fn put_fields(
    out: &mut [u8],
    at: usize,
    kind: u8,
    answered: Result<Told, Refusal>,
    s: Shared,
) -> usize
    ensures { Put out.old at (fields_text kind (refusal_of (answered_says answered)) s) out.new result }
{
    put_shown(
        out,
        at,
        kind,
        refusal_number(answered),
        s.congestion.congestion_window,
        s.bytes_in_flight,
        s.loss_timer,
    )
}

// The three spaces, whatever the words are that their records and queues stand in.
fn put_spaces(out: &mut [u8], at: usize, s: State) -> usize
    ensures { (m : List ℕ) → Put out.old at (spaces_words (connection_of m s)) out.new result }
{
    let run = s.shared.outstanding_non_ack_eliciting;
    let at = put_space(out, at, b" 0.", s.initial, run);
    let at = put_space(out, at, b" 1.", s.handshake, run);
    put_space(out, at, b" 2.", s.application, run)
}

// The line of an event of a kind, with what it answered and the state after it.
pub fn put_inspected(
    out: &mut [u8],
    at: usize,
    kind: u8,
    answered: Result<Told, Refusal>,
    s: State,
) -> usize
    ensures { (m : List ℕ) → Put out.old at (inspected kind (answered_says answered) (connection_of m s)) out.new result }
{
    let at = put_fields(out, at, kind, answered, s.shared);
    let at = put_told(out, at, b" ", answered);
    let at = put_shared(out, at, b" ", s.shared, cwnd_available(s));
    let at = put_spaces(out, at, s);
    put_byte(out, at, b'\n')
}
