// A record is begun. 01 The stage numbers.
ghost use Rattle.serve.specs.Record.{record_of};
ghost use Rattle.serve.specs.Events.{BeginServed};

use crate::Done;
use arith::refusal::Refusal;
use connection::fresh::fresh;
use model::coded::settings_of;
use plain::Values;
use records::memory::Words;

// Any record can be begun; its words stay, being lent as to every event. The spans in nanoseconds. Refusal 2. 000 new
pub fn begin(
    m: &mut Words,
    v: Values,
    max_datagram_size: u64,
    initial_window_packets: u64,
    initial_rtt: u64,
    max_ack_delay: u64,
) -> Done<u64>
    ensures { BeginServed (record_of m.old v) max_datagram_size initial_window_packets initial_rtt max_ack_delay result.answer (record_of m.new result.values) }
{
    match fresh(settings_of(
        max_datagram_size,
        initial_window_packets,
        initial_rtt,
        max_ack_delay,
    )) {
        Ok(s) => Done {
            answer: 0,
            values: Values::from(s),
        },
        Err(k) => Done {
            answer: u64::from(u8::from(k)),
            values: v,
        },
    }
}
