// The round-trip estimates. 01 RTT (002); RFC 9002 section 5.
ghost use Rattle.std.specs.Prelude.{◌≡◌, ◌≤◌};
ghost use Rattle.model.specs.Rtt.{rtt_fresh, rtt_first, rtt_later, rtt_update, capped, adjusted};
ghost use Rattle.estimate.specs.Sums.{rttvar_sum, smoothed_sum};

use arith::refusal::Refusal;
use arith::time::{Span, add_spans, add_up, longer, multiply, shorter};
use model::{Rtt, Settings};

// Before a sample. 01 RTT (002); 002 RttStats::new; RFC 9002 section 5.3
#[tactic(auto, unfolding(model::specs::Rtt::rtt_fresh))]
pub fn rtt_fresh(s: Settings) -> Rtt
    ensures { result ≡ rtt_fresh s }
{
    let initial = s.initial_rtt;
    Rtt {
        latest_rtt: Span(0),
        min_rtt: initial,
        max_rtt: initial,
        smoothed_rtt: initial,
        rttvar: Span(initial.0 / 2),
        has_first_rtt_sample: false,
        max_ack_delay: s.max_ack_delay,
    }
}

// The first sample. 01 RTT (002); 002 update_rtt; RFC 9002 section 5.3
#[tactic(auto, unfolding(model::specs::Rtt::rtt_first))]
fn rtt_first(r: Rtt, latest: Span) -> Rtt
    ensures { result ≡ rtt_first r latest }
{
    Rtt {
        latest_rtt: latest,
        min_rtt: latest,
        max_rtt: latest,
        smoothed_rtt: latest,
        rttvar: Span(latest.0 / 2),
        has_first_rtt_sample: true,
        max_ack_delay: r.max_ack_delay,
    }
}

// The ack delay, at most max ack delay once the handshake is completed. RFC 9002 section 5.3
fn capped_delay(r: Rtt, ack_delay: Span, completed: bool) -> Span
    ensures { result ≡ capped r ack_delay completed }
{
    if completed {
        shorter(ack_delay, r.max_ack_delay)
    } else {
        ack_delay
    }
}

// The sample less the delay, unless that falls below the smallest one; edge is min + delay. RFC 9002 section 5.3
fn adjusted_rtt(latest: Span, delay: Span, edge: Span) -> u64
    requires { delay.0 ≤ edge.0 }
    ensures { result ≡ adjusted latest delay edge }
{
    if edge.0 <= latest.0 {
        latest.0 - delay.0
    } else {
        latest.0
    }
}

// (3 rttvar) / 4 + |smoothed - adjusted| / 4, with the old smoothed. RFC 9002 section 5.3
#[tactic(auto, unfolding(crate::specs::Sums::rttvar_sum))]
fn rttvar_next(r: Rtt, adjusted: u64) -> Result<u64, Refusal>
    ensures { result ≡ rttvar_sum r adjusted }
{
    let v = multiply(3, r.rttvar.0)?;
    add_up(v / 4, r.smoothed_rtt.0.abs_diff(adjusted) / 4)
}

// (7 smoothed) / 8 + adjusted / 8. RFC 9002 section 5.3
#[tactic(auto, unfolding(crate::specs::Sums::smoothed_sum))]
fn smoothed_next(r: Rtt, adjusted: u64) -> Result<u64, Refusal>
    ensures { result ≡ smoothed_sum r adjusted }
{
    let s = multiply(7, r.smoothed_rtt.0)?;
    add_up(s / 8, adjusted / 8)
}

// A later sample. 01 RTT (002); 002 update_rtt; RFC 9002 sections 5.2 and 5.3
#[tactic(auto, using(crate::proofs::Laws::later_by))]
fn rtt_later(r: Rtt, latest: Span, delay: Span) -> Result<Rtt, Refusal>
    ensures { result ≡ rtt_later r latest delay }
{
    let least = shorter(r.min_rtt, latest);
    let edge = add_spans(least, delay)?;
    let a = adjusted_rtt(latest, delay, edge);
    let v = rttvar_next(r, a)?;
    let s = smoothed_next(r, a)?;
    Ok(Rtt {
        latest_rtt: latest,
        min_rtt: least,
        max_rtt: longer(r.max_rtt, latest),
        smoothed_rtt: Span(s),
        rttvar: Span(v),
        has_first_rtt_sample: true,
        max_ack_delay: r.max_ack_delay,
    })
}

// The estimates after a sample. 01 RTT (002); 002 update_rtt; RFC 9002 section 5
#[tactic(auto, unfolding(model::specs::Rtt::rtt_update))]
pub fn update_rtt(r: Rtt, latest: Span, ack_delay: Span, completed: bool) -> Result<Rtt, Refusal>
    ensures { result ≡ rtt_update r latest ack_delay completed }
{
    if !r.has_first_rtt_sample {
        return Ok(rtt_first(r, latest));
    }
    rtt_later(r, latest, capped_delay(r, ack_delay, completed))
}
