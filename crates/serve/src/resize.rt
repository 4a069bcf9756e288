// The datagram size changes. 01 Timer and PTO (000).
ghost use Rattle.serve.specs.Record.{record_of};
ghost use Rattle.serve.specs.Events.{SizeServed};

use crate::Done;
use crate::said::{done, not_begun};
use connection::State;
use plain::Values;
use plain::opened::is_sealed;
use records::memory::Words;

// The words stay: they are lent as to every event. Refusals 2 and 7. 000 pmtud_update_max_datagram_size
pub fn pmtud_update_max_datagram_size(m: &mut Words, v: Values, size: u64) -> Done<u64>
    ensures { SizeServed (record_of m.old v) size result.answer (record_of m.new result.values) }
{
    if !is_sealed(v) {
        return not_begun(v);
    }
    done(
        connection::resize::pmtud_update_max_datagram_size(State::from(v), size),
        v,
    )
}
