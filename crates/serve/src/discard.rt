// A space is discarded with its keys. 01 Timer and PTO (000).
ghost use Rattle.serve.specs.Record.{record_of};
ghost use Rattle.serve.specs.Events.{DiscardServed};

use crate::Done;
use crate::said::{done, not_begun};
use arith::time::Moment;
use connection::State;
use plain::Values;
use plain::opened::is_sealed;
use records::memory::Words;

// Refusals 1, 2 and 7. 000 on_pkt_num_space_discarded
pub fn on_pkt_num_space_discarded(
    m: &mut Words,
    v: Values,
    time: u64,
    space: u64,
    status: u8,
) -> Done<u64>
    ensures { DiscardServed (record_of m.old v) time space status result.answer (record_of m.new result.values) }
{
    if !is_sealed(v) {
        return not_begun(v);
    }
    done(
        connection::discard::on_pkt_num_space_discarded(
            m,
            State::from(v),
            Moment(time),
            space,
            status.into(),
        ),
        v,
    )
}
