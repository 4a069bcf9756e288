// The core by value: a record goes in, and comes back beside the answer. 01 Replay and the host.
// Each event is the one that `serve` does on lent words, claimed in the same words. No public function has a `requires`.
#![tactic(auto)]

ghost use Rattle.serve.specs.Events.{BeginServed, SentServed, AckServed, TimeoutServed, DiscardServed, SizeServed, TakeAckedServed, TakeLostServed, PingServed};

use serve::{AckAnswer, Connection, TakeAnswer, TimeoutAnswer};

// The answer, and the record after the event.
#[derive(Clone, Copy)]
pub struct After<T> {
    pub answer: T,
    pub connection: Connection,
}

// Refusal 2. 000 new
pub fn begin(
    c: Connection,
    max_datagram_size: u64,
    initial_window_packets: u64,
    initial_rtt: u64,
    max_ack_delay: u64,
) -> After<u64>
    ensures { BeginServed c max_datagram_size initial_window_packets initial_rtt max_ack_delay result.answer result.connection }
{
    let mut words = c.words;
    let done = serve::begin::begin(
        &mut words,
        c.values,
        max_datagram_size,
        initial_window_packets,
        initial_rtt,
        max_ack_delay,
    );
    After {
        answer: done.answer,
        connection: Connection {
            words,
            values: done.values,
        },
    }
}

// Refusals 1, 2, 3, 6 and 7. 000 on_packet_sent
pub fn on_packet_sent(
    c: Connection,
    time: u64,
    space: u64,
    number: u64,
    size: u64,
    flags: u8,
    handle: u64,
    status: u8,
) -> After<u64>
    ensures { SentServed c time space number size flags handle status result.answer result.connection }
{
    let mut words = c.words;
    let done = serve::sent::on_packet_sent(
        &mut words, c.values, time, space, number, size, flags, handle, status,
    );
    After {
        answer: done.answer,
        connection: Connection {
            words,
            values: done.values,
        },
    }
}

// Refusals 1, 2, 4, 5, 6 and 7. 000 on_ack_received
pub fn on_ack_received(
    c: Connection,
    time: u64,
    space: u64,
    ranges: &[u64],
    delay: u64,
    status: u8,
    limited: u8,
    skipped: u64,
) -> After<AckAnswer>
    ensures { AckServed c time space ranges.now delay status limited skipped result.answer result.connection }
{
    let mut words = c.words;
    let done = serve::ack::on_ack_received(
        &mut words, c.values, time, space, ranges, delay, status, limited, skipped,
    );
    After {
        answer: done.answer,
        connection: Connection {
            words,
            values: done.values,
        },
    }
}

// Refusals 1, 2, 6 and 7. 000 on_loss_detection_timeout
pub fn on_loss_detection_timeout(c: Connection, time: u64, status: u8) -> After<TimeoutAnswer>
    ensures { TimeoutServed c time status result.answer result.connection }
{
    let mut words = c.words;
    let done = serve::timeouts::on_loss_detection_timeout(&mut words, c.values, time, status);
    After {
        answer: done.answer,
        connection: Connection {
            words,
            values: done.values,
        },
    }
}

// Refusals 1, 2 and 7. 000 on_pkt_num_space_discarded
pub fn on_pkt_num_space_discarded(c: Connection, time: u64, space: u64, status: u8) -> After<u64>
    ensures { DiscardServed c time space status result.answer result.connection }
{
    let mut words = c.words;
    let done = serve::discard::on_pkt_num_space_discarded(
        &mut words, c.values, time, space, status,
    );
    After {
        answer: done.answer,
        connection: Connection {
            words,
            values: done.values,
        },
    }
}

// Refusals 2 and 7. 000 pmtud_update_max_datagram_size
pub fn pmtud_update_max_datagram_size(c: Connection, size: u64) -> After<u64>
    ensures { SizeServed c size result.answer result.connection }
{
    let mut words = c.words;
    let done = serve::resize::pmtud_update_max_datagram_size(&mut words, c.values, size);
    After {
        answer: done.answer,
        connection: Connection {
            words,
            values: done.values,
        },
    }
}

// Refusal 2. 000 next_acked_frame
pub fn next_acked_frame(c: Connection, space: u64) -> After<TakeAnswer>
    ensures { TakeAckedServed c space result.answer result.connection }
{
    let mut words = c.words;
    let done = serve::take::next_acked_frame(&mut words, c.values, space);
    After {
        answer: done.answer,
        connection: Connection {
            words,
            values: done.values,
        },
    }
}

// Refusal 2. 000 next_lost_frame
pub fn next_lost_frame(c: Connection, space: u64) -> After<TakeAnswer>
    ensures { TakeLostServed c space result.answer result.connection }
{
    let mut words = c.words;
    let done = serve::take::next_lost_frame(&mut words, c.values, space);
    After {
        answer: done.answer,
        connection: Connection {
            words,
            values: done.values,
        },
    }
}

// Refusal 2. 000 ping_sent
pub fn ping_sent(c: Connection, space: u64) -> After<u64>
    ensures { PingServed c space result.answer result.connection }
{
    let mut words = c.words;
    let done = serve::take::ping_sent(&mut words, c.values, space);
    After {
        answer: done.answer,
        connection: Connection {
            words,
            values: done.values,
        },
    }
}
