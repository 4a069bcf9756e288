// What the spaces of a connection share, as words.
ghost use Rattle.std.specs.Prelude.{◌≡◌};
ghost use Rattle.trace.specs.Put.{Put};
ghost use Rattle.field.specs.Inspect.{rtt_words, cubic_words, congestion_words, reordering_words, count_words, shared_words};

use crate::words::put_value_at;
use model::{Congestion, Cubic, Reordering, Rtt, Shared};

// The round-trip estimates; min and max are unset before a sample.
pub fn put_rtt(out: &mut [u8], at: usize, tag: &[u8], r: Rtt) -> usize
    ensures { Put out.old at (rtt_words tag.now r) out.new result }
{
    let sampled = r.has_first_rtt_sample;
    let at = put_value_at(out, at, tag, b"latest", r.latest_rtt.0);
    let at = put_value_at(out, at, tag, b"smoothed", r.smoothed_rtt.0);
    let at = put_value_at(out, at, tag, b"rttvar", r.rttvar.0);
    let at = put_value_at(out, at, tag, b"min", sampled.then_some(r.min_rtt.0));
    put_value_at(out, at, tag, b"max", sampled.then_some(r.max_rtt.0))
}

pub fn put_cubic(out: &mut [u8], at: usize, tag: &[u8], c: Cubic) -> usize
    ensures { Put out.old at (cubic_words tag.now c) out.new result }
{
    let at = put_value_at(out, at, tag, b"w_max", c.w_max);
    let at = put_value_at(out, at, tag, b"k", c.k);
    let at = put_value_at(out, at, tag, b"w_est", c.w_est);
    let at = put_value_at(out, at, tag, b"alpha", c.alpha_aimd);
    put_value_at(out, at, tag, b"cwnd_inc", c.cwnd_inc)
}

pub fn put_congestion(out: &mut [u8], at: usize, tag: &[u8], g: Congestion) -> usize
    ensures { Put out.old at (congestion_words tag.now g) out.new result }
{
    let at = put_value_at(out, at, tag, b"ssthresh", g.ssthresh);
    let at = put_cubic(out, at, tag, g.cubic);
    let at = put_value_at(out, at, tag, b"bytes_acked_sl", g.bytes_acked_sl);
    let at = put_value_at(
        out,
        at,
        tag,
        b"recovery_start",
        g.congestion_recovery_start_time,
    );
    put_value_at(out, at, tag, b"lost_count", g.lost_count)
}

pub fn put_reordering(out: &mut [u8], at: usize, tag: &[u8], r: Reordering) -> usize
    ensures { Put out.old at (reordering_words tag.now r) out.new result }
{
    let at = put_value_at(out, at, tag, b"lost_spurious_count", r.lost_spurious_count);
    let at = put_value_at(out, at, tag, b"pkt_thresh", r.pkt_thresh);
    put_value_at(out, at, tag, b"time_thresh", r.time_thresh)
}

// The PTO count, the run of non-eliciting packets and the bytes that may be sent.
pub fn put_counts(out: &mut [u8], at: usize, tag: &[u8], count: u64, run: u64, bytes: u64) -> usize
    ensures { Put out.old at (count_words tag.now count run bytes) out.new result }
{
    let at = put_value_at(out, at, tag, b"pto_count", count);
    let at = put_value_at(out, at, tag, b"outstanding_non_ack_eliciting", run);
    put_value_at(out, at, tag, b"cwnd_available", bytes)
}

pub fn put_shared(out: &mut [u8], at: usize, tag: &[u8], s: Shared, bytes: u64) -> usize
    ensures { Put out.old at (shared_words tag.now s bytes) out.new result }
{
    let at = put_rtt(out, at, tag, s.rtt);
    let at = put_congestion(out, at, tag, s.congestion);
    let at = put_reordering(out, at, tag, s.reordering);
    put_counts(
        out,
        at,
        tag,
        s.pto_count,
        s.outstanding_non_ack_eliciting,
        bytes,
    )
}
