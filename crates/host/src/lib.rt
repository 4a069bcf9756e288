// The library that a host links: its record of a connection is lent to each event and changed in place. 01 Replay and the host.
// Each function takes the record apart, lends its words to the event by plain numbers, and puts the values back. No function has a `requires`.
#![tactic(auto)]

ghost use Rattle.std.specs.Prelude.{◌≡◌, List, ℕ};
ghost use Rattle.serve.specs.Events.{BeginServed, SentServed, AckServed, TimeoutServed, DiscardServed, SizeServed, TakeAckedServed, TakeLostServed, PingServed};
ghost use Rattle.serve.specs.Readouts.{readouts_of};
ghost use Rattle.serve.specs.Record.{record_of, stands_for};

use plain::Values;
use serve::readouts::Readouts;
use serve::{AckAnswer, Connection, TakeAnswer, TimeoutAnswer};

// A record is begun, whatever stands in it. Spans in nanoseconds. The number of the refusal, or 0.
pub fn skavvilet_begin(
    c: &mut Connection,
    max_datagram_size: u64,
    initial_window_packets: u64,
    initial_rtt: u64,
    max_ack_delay: u64,
) -> u64
    ensures { BeginServed c.old max_datagram_size initial_window_packets initial_rtt max_ack_delay result c.new }
{
    let a = serve::begin::begin(
        &mut c.words,
        c.values,
        max_datagram_size,
        initial_window_packets,
        initial_rtt,
        max_ack_delay,
    );
    c.values = a.values;
    a.answer
}

// A packet is sent, at a time in nanoseconds. The number of the refusal, or 0.
pub fn skavvilet_on_packet_sent(
    c: &mut Connection,
    time: u64,
    space: u64,
    number: u64,
    size: u64,
    flags: u8,
    handle: u64,
    status: u8,
) -> u64
    ensures { SentServed c.old time space number size flags handle status result c.new }
{
    let a = serve::sent::on_packet_sent(
        &mut c.words,
        c.values,
        time,
        space,
        number,
        size,
        flags,
        handle,
        status,
    );
    c.values = a.values;
    a.answer
}

// An acknowledgement: ranges as start and end in turn, the delay in microseconds.
pub fn skavvilet_on_ack_received(
    c: &mut Connection,
    time: u64,
    space: u64,
    ranges: &[u64],
    delay: u64,
    status: u8,
    limited: u8,
    skipped: u64,
) -> AckAnswer
    ensures { AckServed c.old time space ranges.now delay status limited skipped result c.new }
{
    let a = serve::ack::on_ack_received(
        &mut c.words,
        c.values,
        time,
        space,
        ranges,
        delay,
        status,
        limited,
        skipped,
    );
    c.values = a.values;
    a.answer
}

// The loss detection timer runs out.
pub fn skavvilet_on_loss_detection_timeout(
    c: &mut Connection,
    time: u64,
    status: u8,
) -> TimeoutAnswer
    ensures { TimeoutServed c.old time status result c.new }
{
    let a = serve::timeouts::on_loss_detection_timeout(&mut c.words, c.values, time, status);
    c.values = a.values;
    a.answer
}

// A space is discarded with its keys. The number of the refusal, or 0.
pub fn skavvilet_on_pkt_num_space_discarded(
    c: &mut Connection,
    time: u64,
    space: u64,
    status: u8,
) -> u64
    ensures { DiscardServed c.old time space status result c.new }
{
    let a = serve::discard::on_pkt_num_space_discarded(&mut c.words, c.values, time, space, status);
    c.values = a.values;
    a.answer
}

// A datagram size that path MTU discovery found. The number of the refusal, or 0.
pub fn skavvilet_pmtud_update_max_datagram_size(c: &mut Connection, size: u64) -> u64
    ensures { SizeServed c.old size result c.new }
{
    let a = serve::resize::pmtud_update_max_datagram_size(&mut c.words, c.values, size);
    c.values = a.values;
    a.answer
}

// The handle of a packet that was acked, 0 for none.
pub fn skavvilet_next_acked_frame(c: &mut Connection, space: u64) -> TakeAnswer
    ensures { TakeAckedServed c.old space result c.new }
{
    let a = serve::take::next_acked_frame(&mut c.words, c.values, space);
    c.values = a.values;
    a.answer
}

// The handle of a packet to be sent again, 0 for none.
pub fn skavvilet_next_lost_frame(c: &mut Connection, space: u64) -> TakeAnswer
    ensures { TakeLostServed c.old space result c.new }
{
    let a = serve::take::next_lost_frame(&mut c.words, c.values, space);
    c.values = a.values;
    a.answer
}

// A ping takes a probe. The number of the refusal, or 0.
pub fn skavvilet_ping_sent(c: &mut Connection, space: u64) -> u64
    ensures { PingServed c.old space result c.new }
{
    let a = serve::take::ping_sent(&mut c.words, c.values, space);
    c.values = a.values;
    a.answer
}

// What is read of a record with these values and is no field of it.
pub fn skavvilet_readouts(v: Values) -> Readouts
    ensures { (m : List ℕ) → result ≡ readouts_of (stands_for (record_of m v)) }
{
    serve::readouts::read(v)
}
