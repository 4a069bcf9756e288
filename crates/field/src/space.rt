// What a packet number space keeps, as words: counts for its records and queues.
ghost use Rattle.std.specs.Prelude.{List, ℕ, ◌≡◌};
ghost use Rattle.connection.specs.View.{space_of};
ghost use Rattle.trace.specs.Put.{Put};
ghost use Rattle.field.specs.Inspect.{time_words, frame_words, last_words, space_words};

use crate::words::put_value_at;
use connection::SpaceState;
use estimate::timer::should_elicit_ack;
use model::Epoch;
use records::memory::held;

// The loss time, the probes and the count of packets in flight.
fn put_times(out: &mut [u8], at: usize, tag: &[u8], e: Epoch) -> usize
    ensures { Put out.old at (time_words tag.now e) out.new result }
{
    let at = put_value_at(out, at, tag, b"loss_time", e.loss_time);
    let at = put_value_at(out, at, tag, b"loss_probes", e.loss_probes);
    put_value_at(out, at, tag, b"in_flight_count", e.in_flight_count)
}

// How many records there are, and how many handles wait in each queue.
fn put_frames(
    out: &mut [u8],
    at: usize,
    tag: &[u8],
    sent: u64,
    acked: u64,
    ack: u64,
    pto: u64,
) -> usize
    ensures { Put out.old at (frame_words tag.now sent acked ack pto) out.new result }
{
    let at = put_value_at(out, at, tag, b"sent_packets", sent);
    let at = put_value_at(out, at, tag, b"acked_frames", acked);
    let at = put_value_at(out, at, tag, b"lost_frames_ack", ack);
    put_value_at(out, at, tag, b"lost_frames_pto", pto)
}

// The largest acked, the last eliciting send, and whether the next packet is to elicit an ack.
fn put_last(out: &mut [u8], at: usize, tag: &[u8], e: Epoch, run: u64) -> usize
    ensures { Put out.old at (last_words tag.now e run) out.new result }
{
    let at = put_value_at(out, at, tag, b"largest_acked", e.largest_acked_packet);
    let at = put_value_at(
        out,
        at,
        tag,
        b"last_ack_eliciting",
        e.time_of_last_ack_eliciting_packet,
    );
    put_value_at(
        out,
        at,
        tag,
        b"should_elicit_ack",
        should_elicit_ack(e.loss_probes, run),
    )
}

// A space, whatever the words are that its records and queues stand in.
pub fn put_space(out: &mut [u8], at: usize, tag: &[u8], s: SpaceState, run: u64) -> usize
    ensures { (m : List ℕ) (n : ℕ) → Put out.old at (space_words tag.now (space_of m n s) run) out.new result }
{
    let sent = held(s.len) as u64;
    let acked = held(s.acked) as u64;
    let ack = held(s.lost_ack) as u64;
    let pto = held(s.lost_pto) as u64;
    let at = put_times(out, at, tag, s.epoch);
    let at = put_frames(out, at, tag, sent, acked, ack, pto);
    put_last(out, at, tag, s.epoch, run)
}
