// Loss verdicts. 01 Lost or not; RFC 9002 section 6.1.
ghost use Rattle.std.specs.Prelude.{◌≡◌};
ghost use Rattle.arith.specs.Time.{later_of};
ghost use Rattle.model.specs.Loss.{loss_delay, is_lost};

use arith::refusal::Refusal;
use arith::round::{TimeThreshold, rounded_product};
use arith::time::{Moment, Span, later, longer, passed};
use model::{Judge, Rtt, Sent};

// 1 ms. 01 The stage numbers; RFC 9002 section 6.1.2
pub const GRANULARITY: u64 = 1000000;

// How long a packet may stay unacknowledged. 01 Lost or not; 002 loss_delay; RFC 9002 section 6.1.2
#[tactic(auto, unfolding(model::specs::Loss::loss_delay))]
pub fn loss_delay(r: Rtt, t: TimeThreshold) -> Result<Span, Refusal>
    ensures { result ≡ loss_delay r t }
{
    let d = rounded_product(longer(r.latest_rtt, r.smoothed_rtt), t)?;
    Ok(longer(d, Span(GRANULARITY)))
}

// Whether a record is lost: by time, or by number. 01 Lost or not; 000 detect_lost_packets; RFC 9002 section 6.1
#[tactic(auto, unfolding(model::specs::Loss::is_lost))]
pub fn is_lost(j: Judge, r: Sent) -> bool
    ensures { result ≡ is_lost j r }
{
    passed(r.time_sent, j.delay, j.now)
        || r.number <= j.largest && j.threshold <= j.largest - r.number
}

// The first survivor's loss time. 01 Lost or not; 000 detect_lost_packets
#[tactic(auto, unfolding(arith::specs::Time::later_of))]
pub fn loss_time(sent: Moment, delay: Span) -> Result<Moment, Refusal>
    ensures { result ≡ later_of sent delay }
{
    later(sent, delay)
}
