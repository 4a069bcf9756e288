// The loss detection timer runs out. 01 Timer and PTO (000).
ghost use Rattle.serve.specs.Record.{record_of};
ghost use Rattle.serve.specs.Events.{TimeoutServed};

use crate::said::{done, not_begun};
use crate::{Done, TimeoutAnswer};
use arith::time::Moment;
use connection::State;
use plain::Values;
use plain::opened::is_sealed;
use records::memory::Words;

// Refusals 1, 2, 6 and 7. 000 on_loss_detection_timeout
pub fn on_loss_detection_timeout(
    m: &mut Words,
    v: Values,
    time: u64,
    status: u8,
) -> Done<TimeoutAnswer>
    ensures { TimeoutServed (record_of m.old v) time status result.answer (record_of m.new result.values) }
{
    if !is_sealed(v) {
        return not_begun(v);
    }
    done(
        timeout::on_loss_detection_timeout(m, State::from(v), Moment(time), status.into()),
        v,
    )
}
