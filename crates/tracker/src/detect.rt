// Loss detection in a space, decided and not yet stored. 01 Lost or not; 000 LegacyRecovery::detect_lost_packets; RFC 9002 section 6.1
ghost use Rattle.std.specs.Prelude.{◌≡◌, ◌≤◌};
ghost use Rattle.model.specs.Numbers.{or_zero};
ghost use Rattle.connection.specs.View.{normal_of};
ghost use Rattle.tracker.specs.Plan.{plan_losses, ends_of};

use crate::Losses;
use arith::refusal::Refusal;
use arith::time::Moment;
use connection::parts::normal;
use connection::{Normal, SpaceState};
use estimate::loss::loss_delay;
use losses::detect::seek;
use losses::drain::drain;
use marks::{Flags, Stop};
use model::{Judge, Reordering, Rtt};
use records::memory::Words;

// A stored number, or 0.
pub fn or_zero(n: Option<u64>) -> u64
    ensures { result ≡ or_zero n }
{
    n.unwrap_or(0)
}

// Where a detection that stopped leaves the space.
fn ended<F: Flags>(
    m: &Words,
    n: u64,
    q: Normal,
    flags: &F,
    time: Moment,
    rtt: Rtt,
    from: usize,
    f: Stop,
) -> Losses
    requires { from ≤ q.space.len }
    ensures { result ≡ ends_of m.now n q.space (F.seen flags.now) time rtt from f }
{
    Losses {
        tally: f.tally,
        stop: f.place,
        loss_time: f.loss_time,
        keep: drain(
            m,
            n,
            q.space.head,
            q.space.len,
            flags,
            from,
            f.place,
            time,
            rtt.smoothed_rtt,
        ),
    }
}

// Losses among the records from a place on, as step 1 leaves them.
#[tactic(auto, unfolding(crate::specs::Plan::plan_losses))]
pub(crate) fn plan_losses<F: Flags>(
    m: &Words,
    n: u64,
    q: Normal,
    flags: &F,
    time: Moment,
    rtt: Rtt,
    o: Reordering,
    largest: Option<u64>,
    in_flight: u64,
    from: usize,
) -> Result<Losses, Refusal>
    requires { from ≤ q.space.len }
    ensures { result ≡ plan_losses m.now n q.space (F.seen flags.now) time rtt o largest in_flight from }
{
    let delay = loss_delay(rtt, o.time_thresh)?;
    let j = Judge {
        now: time,
        delay,
        threshold: o.pkt_thresh,
        largest: or_zero(largest),
    };
    let f = seek(
        m,
        n,
        q.space.head,
        q.space.len,
        flags,
        from,
        j,
        q.space.lost_ack as u64,
        in_flight,
    )?;
    Ok(ended(m, n, q, flags, time, rtt, from, f))
}

// Losses among all records of a space, whatever its counts.
pub fn plan_all_losses<F: Flags>(
    m: &Words,
    n: u64,
    q: SpaceState,
    flags: &F,
    time: Moment,
    rtt: Rtt,
    o: Reordering,
    largest: Option<u64>,
    in_flight: u64,
) -> Result<Losses, Refusal>
    ensures { result ≡ plan_losses m.now n (normal_of q) (F.seen flags.now) time rtt o largest in_flight 0 }
{
    plan_losses(m, n, normal(q), flags, time, rtt, o, largest, in_flight, 0)
}
