// Each kind of event of a trace, by its number, played on a connection's words and state. 01 'Replay and the host'.
ghost use Rattle.std.specs.Prelude.{List, [], ℕ};
ghost use Rattle.trace.specs.declared.Event.TheVariants as Event;
ghost use Rattle.play.specs.Places.{PlaysOne};

use crate::Told;
use crate::answers::told;
use connection::discard::on_pkt_num_space_discarded;
use connection::resize::pmtud_update_max_datagram_size;
use connection::sent::on_packet_sent;
use connection::take::{next_acked_frame, next_lost_frame, ping_sent};
use connection::{Answer, State};
use records::memory::Words;
use timeout::on_loss_detection_timeout;
use trace::{AckEvent, DiscardEvent, SentEvent, TimeoutEvent};
use tracker::ack::on_ack_received;

// 1 sent.
pub fn play_sent(m: &mut Words, s: State, e: SentEvent) -> Answer<Told>
    ensures { PlaysOne (Event.Sent e) [] m.old m.new s result }
{
    told(on_packet_sent(m, s, e.time, e.space, e.packet, e.status))
}

// 3 ack, on the ranges held.
pub fn play_ack(m: &mut Words, s: State, e: AckEvent, ranges: &[u64]) -> Answer<Told>
    ensures { PlaysOne (Event.Ack e) ranges.now m.old m.new s result }
{
    told(on_ack_received(
        m, s, e.time, e.space, ranges, e.delay, e.status, e.limited, e.skipped,
    ))
}

// 4 timeout.
pub fn play_timeout(m: &mut Words, s: State, e: TimeoutEvent) -> Answer<Told>
    ensures { PlaysOne (Event.Timeout e) [] m.old m.new s result }
{
    told(on_loss_detection_timeout(m, s, e.time, e.status))
}

// 5 discard.
pub fn play_discard(m: &Words, s: State, e: DiscardEvent) -> Answer<Told>
    ensures { PlaysOne (Event.Discard e) [] m.now m.now s result }
{
    told(on_pkt_num_space_discarded(m, s, e.time, e.space, e.status))
}

// 6 size.
pub fn play_size(s: State, size: u64) -> Answer<Told>
    ensures { (m : List ℕ) → PlaysOne (Event.Size size) [] m m s result }
{
    told(pmtud_update_max_datagram_size(s, size))
}

// 7 take acked.
pub fn play_take_acked(m: &Words, s: State, n: u64) -> Answer<Told>
    ensures { PlaysOne (Event.TakeAcked n) [] m.now m.now s result }
{
    told(next_acked_frame(m, s, n))
}

// 8 take lost.
pub fn play_take_lost(m: &Words, s: State, n: u64) -> Answer<Told>
    ensures { PlaysOne (Event.TakeLost n) [] m.now m.now s result }
{
    told(next_lost_frame(m, s, n))
}

// 9 ping.
pub fn play_ping(s: State, n: u64) -> Answer<Told>
    ensures { (m : List ℕ) → PlaysOne (Event.Ping n) [] m m s result }
{
    told(ping_sent(s, n))
}
