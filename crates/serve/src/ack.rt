// An acknowledgement is received. 01 Acknowledgement (000).
ghost use Rattle.serve.specs.Record.{record_of};
ghost use Rattle.serve.specs.Events.{AckServed};

use crate::said::{done, not_begun};
use crate::{AckAnswer, Done};
use arith::time::Moment;
use connection::State;
use model::coded::{is_odd, skipped_of};
use plain::Values;
use plain::opened::is_sealed;
use records::memory::Words;

// Ranges as start and end in turn; the delay in microseconds. Refusals 1, 2, 4, 5, 6 and 7. 000 on_ack_received
pub fn on_ack_received(
    m: &mut Words,
    v: Values,
    time: u64,
    space: u64,
    ranges: &[u64],
    delay: u64,
    status: u8,
    limited: u8,
    skipped: u64,
) -> Done<AckAnswer>
    ensures { AckServed (record_of m.old v) time space ranges.now delay status limited skipped result.answer (record_of m.new result.values) }
{
    if !is_sealed(v) {
        return not_begun(v);
    }
    done(
        tracker::ack::on_ack_received(
            m,
            State::from(v),
            Moment(time),
            space,
            ranges,
            delay,
            status.into(),
            is_odd(limited),
            skipped_of(skipped),
        ),
        v,
    )
}
