// Any event of a trace, played on a connection's words and state. 01 'Replay and the host'.
// No public function has a `requires`; each claims its whole answer.
#![tactic(auto)]

ghost use Rattle.model.specs.Run.{step};
ghost use Rattle.connection.specs.View.{connection_of, Does};
ghost use Rattle.trace.specs.Says.{event_says};
ghost use Rattle.play.specs.Answers.{answered_says};
ghost use Rattle.play.specs.Places.{place_of, words_of};

use crate::events::{
    play_ack, play_discard, play_ping, play_sent, play_size, play_take_acked, play_take_lost,
    play_timeout,
};
use connection::{Answer, State};
use model::{OnAckReceivedOutcome, OnLossDetectionTimeoutOutcome};
use records::memory::Words;
use trace::Event;

pub mod answers;
mod events;

// What an accepted event answers, of whatever kind it was.
#[derive(Clone, Copy)]
pub enum Told {
    Done,
    Ack(OnAckReceivedOutcome),
    Timeout(OnLossDetectionTimeoutOutcome),
    // of a packet's frames; 0 from an empty queue
    Handle(u64),
}

// An event, an ack's with the held ranges. 01 Replay and the host
pub fn play(m: &mut Words, s: State, e: Event, ranges: &[u64]) -> Answer<Told>
    ensures { Does (step (event_says e ranges.now) (connection_of m.old s)) (answered_says result.outcome) m.old m.new s result.state (place_of e s) (words_of e m.old s) }
{
    match e {
        Event::Sent(x) => play_sent(m, s, x),
        Event::Ack(x) => play_ack(m, s, x, ranges),
        Event::Timeout(x) => play_timeout(m, s, x),
        Event::Discard(x) => play_discard(m, s, x),
        Event::Size(size) => play_size(s, size),
        Event::TakeAcked(n) => play_take_acked(m, s, n),
        Event::TakeLost(n) => play_take_lost(m, s, n),
        Event::Ping(n) => play_ping(s, n),
    }
}
