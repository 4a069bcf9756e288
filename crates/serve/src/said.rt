// What an event answered, as plain numbers; after a refusal the values are the ones before.
ghost use Rattle.std.specs.Prelude.{◌≡◌, Result, Err};
ghost use Rattle.arith.specs.declared.refusal.Refusal.{Refusal};
ghost use Rattle.arith.specs.declared.refusal.Refusal.TheVariants.{Domain};
ghost use Rattle.model.specs.Run.{refusal_of};
ghost use Rattle.serve.specs.Answers.{ack_said, timeout_said, take_said, done_by};

use crate::{AckAnswer, Done, TakeAnswer, TimeoutAnswer};
use arith::refusal::Refusal;
use connection::Answer;
use model::{OnAckReceivedOutcome, OnLossDetectionTimeoutOutcome};
use plain::Values;

// The plain numbers of an event's answer, whichever they are.
pub trait Said {
    type Outcome: Copy;

    ghost says: { Result Self.Outcome Refusal → Self };

    fn said(outcome: Result<Self::Outcome, Refusal>) -> Self
        ensures { result ≡ says outcome };
}

// The number of the refusal, or 0.
impl Said for u64 {
    type Outcome = ();

    ghost says = { refusal_of };

    fn said(outcome: Result<(), Refusal>) -> u64
        ensures { result ≡ refusal_of outcome }
    {
        match outcome {
            Ok(()) => 0,
            Err(k) => u64::from(u8::from(k)),
        }
    }
}

impl Said for AckAnswer {
    type Outcome = OnAckReceivedOutcome;

    ghost says = { ack_said };

    fn said(outcome: Result<OnAckReceivedOutcome, Refusal>) -> AckAnswer
        ensures { result ≡ ack_said outcome }
    {
        match outcome {
            Ok(o) => AckAnswer {
                refusal: 0,
                lost_packets: o.lost_packets,
                lost_bytes: o.lost_bytes,
                acked_bytes: o.acked_bytes,
                spurious_losses: o.spurious_losses,
            },
            Err(k) => AckAnswer {
                refusal: u64::from(u8::from(k)),
                lost_packets: 0,
                lost_bytes: 0,
                acked_bytes: 0,
                spurious_losses: 0,
            },
        }
    }
}

impl Said for TimeoutAnswer {
    type Outcome = OnLossDetectionTimeoutOutcome;

    ghost says = { timeout_said };

    fn said(outcome: Result<OnLossDetectionTimeoutOutcome, Refusal>) -> TimeoutAnswer
        ensures { result ≡ timeout_said outcome }
    {
        match outcome {
            Ok(o) => TimeoutAnswer {
                refusal: 0,
                lost_packets: o.lost_packets,
                lost_bytes: o.lost_bytes,
            },
            Err(k) => TimeoutAnswer {
                refusal: u64::from(u8::from(k)),
                lost_packets: 0,
                lost_bytes: 0,
            },
        }
    }
}

impl Said for TakeAnswer {
    type Outcome = u64;

    ghost says = { take_said };

    fn said(outcome: Result<u64, Refusal>) -> TakeAnswer
        ensures { result ≡ take_said outcome }
    {
        match outcome {
            Ok(handle) => TakeAnswer { refusal: 0, handle },
            Err(k) => TakeAnswer {
                refusal: u64::from(u8::from(k)),
                handle: 0,
            },
        }
    }
}

// An event on values that were begun.
pub fn done<T: Said>(a: Answer<T::Outcome>, v: Values) -> Done<T>
    ensures { result ≡ done_by T.says a.outcome v a.state }
{
    Done {
        values: if a.outcome.is_ok() {
            Values::from(a.state)
        } else {
            v
        },
        answer: T::said(a.outcome),
    }
}

// One on values that were not: refusal 2.
pub fn not_begun<T: Said>(v: Values) -> Done<T>
    ensures { result ≡ record { answer = T.says (Err Domain); values = v } }
{
    Done {
        answer: T::said(Err(Refusal::Domain)),
        values: v,
    }
}
