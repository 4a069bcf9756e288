// The answers of the events, each of its own type, as one.
ghost use Rattle.std.specs.Prelude.{◌≡◌};
ghost use Rattle.model.specs.Run.{refusal_of};
ghost use Rattle.play.specs.Answers.{answered_says, is_accepted, mapped};
ghost use Rattle.play.specs.declared.Told.{Told};

use crate::Told;
use arith::refusal::Refusal;
use connection::Answer;
use model::{OnAckReceivedOutcome, OnLossDetectionTimeoutOutcome};

// What an event of one kind answers, in the words that are the same for all.
pub trait Tell: Copy {
    ghost tells: { Self → Told };

    fn tell(self) -> Told
        ensures { result ≡ tells self };
}

// Nothing but that it was accepted.
impl Tell for () {
    ghost tells = { λ _. Told.Done };

    fn tell(self) -> Told {
        Told::Done
    }
}

impl Tell for OnAckReceivedOutcome {
    ghost tells = { Told.Ack };

    fn tell(self) -> Told {
        Told::Ack(self)
    }
}

impl Tell for OnLossDetectionTimeoutOutcome {
    ghost tells = { Told.Timeout };

    fn tell(self) -> Told {
        Told::Timeout(self)
    }
}

// A handle.
impl Tell for u64 {
    ghost tells = { Told.Handle };

    fn tell(self) -> Told {
        Told::Handle(self)
    }
}

// An event's own answer, as one that is the same for all.
pub fn told<T: Tell>(a: Answer<T>) -> Answer<Told>
    ensures { result ≡ record { outcome = mapped T.tells a.outcome; state = a.state } }
{
    Answer {
        outcome: match a.outcome {
            Ok(outcome) => Ok(outcome.tell()),
            Err(k) => Err(k),
        },
        state: a.state,
    }
}

// The refusal's number; 0 is accepted. 01 The stage numbers
pub fn refusal_number(a: Result<Told, Refusal>) -> u64
    ensures { result ≡ refusal_of (answered_says a) }
{
    match a {
        Ok(_) => 0,
        Err(k) => u64::from(u8::from(k)),
    }
}

// Whether the event counts as accepted. 01 Replay and the host
pub fn is_accepted(a: Result<Told, Refusal>) -> bool
    ensures { result ≡ is_accepted (answered_says a) }
{
    a.is_ok()
}
