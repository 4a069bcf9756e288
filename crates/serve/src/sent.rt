// A packet is sent. 01 Timer and PTO (000).
ghost use Rattle.serve.specs.Record.{record_of};
ghost use Rattle.serve.specs.Events.{SentServed};

use crate::Done;
use crate::said::{done, not_begun};
use arith::time::Moment;
use connection::State;
use model::coded::packet_of;
use plain::Values;
use plain::opened::is_sealed;
use records::memory::Words;

// A packet of a space, at a time in nanoseconds. Refusals 1, 2, 3, 6 and 7. 000 on_packet_sent
pub fn on_packet_sent(
    m: &mut Words,
    v: Values,
    time: u64,
    space: u64,
    number: u64,
    size: u64,
    flags: u8,
    handle: u64,
    status: u8,
) -> Done<u64>
    ensures { SentServed (record_of m.old v) time space number size flags handle status result.answer (record_of m.new result.values) }
{
    if !is_sealed(v) {
        return not_begun(v);
    }
    done(
        connection::sent::on_packet_sent(
            m,
            State::from(v),
            Moment(time),
            space,
            packet_of(number, size, flags, handle),
            status.into(),
        ),
        v,
    )
}
