// Handles are taken from a space's queues, and a ping takes a probe. 01 Timer and PTO (000).
ghost use Rattle.serve.specs.Record.{record_of};
ghost use Rattle.serve.specs.Events.{TakeAckedServed, TakeLostServed, PingServed};

use crate::said::{done, not_begun};
use crate::{Done, TakeAnswer};
use connection::State;
use plain::Values;
use plain::opened::is_sealed;
use records::memory::Words;

// Refusal 2. 000 next_acked_frame
pub fn next_acked_frame(m: &mut Words, v: Values, space: u64) -> Done<TakeAnswer>
    ensures { TakeAckedServed (record_of m.old v) space result.answer (record_of m.new result.values) }
{
    if !is_sealed(v) {
        return not_begun(v);
    }
    done(
        connection::take::next_acked_frame(m, State::from(v), space),
        v,
    )
}

// Refusal 2. 000 next_lost_frame
pub fn next_lost_frame(m: &mut Words, v: Values, space: u64) -> Done<TakeAnswer>
    ensures { TakeLostServed (record_of m.old v) space result.answer (record_of m.new result.values) }
{
    if !is_sealed(v) {
        return not_begun(v);
    }
    done(
        connection::take::next_lost_frame(m, State::from(v), space),
        v,
    )
}

// The words stay: they are lent as to every event. Refusal 2. 000 ping_sent
pub fn ping_sent(m: &mut Words, v: Values, space: u64) -> Done<u64>
    ensures { PingServed (record_of m.old v) space result.answer (record_of m.new result.values) }
{
    if !is_sealed(v) {
        return not_begun(v);
    }
    done(connection::take::ping_sent(State::from(v), space), v)
}
