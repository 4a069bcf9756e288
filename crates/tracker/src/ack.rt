// An acknowledgement is received. 01 Acknowledgement (000); 000 on_ack_received
ghost use Rattle.std.specs.Prelude.{◌≡◌, ◌≤◌, ◌<◌};
ghost use Rattle.arith.specs.Whole.{limit};
ghost use Rattle.model.specs.Events.{acknowledge, on_ack_received};
ghost use Rattle.connection.specs.View.{connection_of, state_by, Does};
ghost use Rattle.tracker.specs.Event.{ack_words};

use crate::Received;
use crate::decide::plan_ack;
use acks::cover::cover;
use arith::time::Moment;
use commit::{Queues, Touched, commit};
use connection::parts::{normal, refused, space_at, with_space};
use connection::{Answer, State};
use front::ack::check_ack;
use model::{HandshakeStatus, OnAckReceivedOutcome};
use records::memory::{Words, full};

// Steps 1 to 6: decided, and stored if nothing refuses. 01 Acknowledgement (000)
fn take_ack(
    m: &mut Words,
    s: State,
    n: u64,
    words: &[u64],
    a: Received,
) -> Answer<OnAckReceivedOutcome>
    requires { (n < 3) × (a.time.0 ≤ limit) }
    ensures { Does (acknowledge a.time n words.now a.delay a.status a.limited (connection_of m.old s)) result.outcome m.old m.new s result.state (state_by s n 0) (ack_words m.old s n) }
{
    full(*m);
    let q = normal(space_at(s, n));
    let covered = cover(m, n, q.space.head, q.space.len, words);
    match plan_ack(m, n, q, &covered, words, a, s) {
        Ok(p) => {
            commit(
                m,
                n,
                q.space.head,
                q.space.len,
                &covered.flags,
                covered.last,
                Touched {
                    from: p.from,
                    stop: p.stop,
                    keep: p.keep,
                },
                a.time,
                Queues {
                    acked: q.space.acked,
                    lost: q.space.lost_ack,
                },
            );
            Answer {
                outcome: Ok(p.outcome),
                state: with_space(s, n, p.space, p.shared),
            }
        }
        Err(k) => refused(s, k),
    }
}

// The records in the ranges are acked in space n. delay: microseconds; limited: the application limits the sender; skipped: a number
// that the sender has left out. Refusals 1, 2, 4, 5, 6 and 7. 01 Acknowledgement (000); 000 on_ack_received; RFC 9002 section A.7
pub fn on_ack_received(
    m: &mut Words,
    s: State,
    time: Moment,
    n: u64,
    words: &[u64],
    delay: u64,
    status: HandshakeStatus,
    limited: bool,
    skipped: Option<u64>,
) -> Answer<OnAckReceivedOutcome>
    ensures { Does (on_ack_received time n words.now delay status limited skipped (connection_of m.old s)) result.outcome m.old m.new s result.state (state_by s n 0) (ack_words m.old s n) }
{
    match check_ack(s.shared.clock, time, n, words, delay, skipped) {
        Ok(delay) => take_ack(
            m,
            s,
            n,
            words,
            Received {
                time,
                delay,
                status,
                limited,
            },
        ),
        Err(k) => refused(s, k),
    }
}
