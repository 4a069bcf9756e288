// What an event tells the congestion controller, in order. 01 CUBIC (001), Lost or not, Acknowledgement (000) 3 and 6
ghost use Rattle.std.specs.Prelude.{◌≡◌, [], ◌∷◌, ◌++◌, Ok};
ghost use Rattle.model.specs.Control.{control, forgive_by, lose_by, count, ack_each};
ghost use Rattle.marks.specs.Marks.{newly_of};
ghost use Rattle.tracker.specs.Plan.{flags, held};

use acks::each::ack_each;
use arith::refusal::Refusal;
use arith::time::{Moment, Span};
use congestion::recovery::{congestion_event, count_lost, rollback};
use connection::Normal;
use marks::{Covered, LostTally};
use model::Congestion;
use records::memory::Words;

// A spurious record in flight: rollback. 01 Acknowledgement (000) 3
pub fn forgiven(g: Congestion, spurious_in_flight: bool) -> Congestion
    ensures { control (forgive_by spurious_in_flight) g ≡ Ok result }
{
    if spurious_in_flight { rollback(g) } else { g }
}

// The last non-probe lost in flight decides the congestion event; the lost count rises after it. 01 Lost or not
#[tactic(auto, unfolding(model::specs::Control::control))]
pub fn after_losses(g: Congestion, time: Moment, l: LostTally) -> Result<Congestion, Refusal>
    ensures { result ≡ control (lose_by time l.last ++ (count l.packets ∷ [])) g }
{
    match l.last {
        None => count_lost(g, l.packets),
        Some(sent) => count_lost(congestion_event(g, time, sent)?, l.packets),
    }
}

// CUBIC per acked packet in order. 01 Acknowledgement (000) 6
pub(crate) fn acked_each(
    m: &Words,
    n: u64,
    q: Normal,
    covered: &Covered,
    g: Congestion,
    time: Moment,
    limited: bool,
    min_rtt: Span,
) -> Result<Congestion, Refusal>
    ensures { result ≡ control (ack_each time limited min_rtt (newly_of (flags m.now n q.space covered.now.flags) (held m.now n q.space covered.now.flags))) g }
{
    ack_each(
        m,
        n,
        q.space.head,
        q.space.len,
        &covered.flags,
        covered.last,
        g,
        time,
        limited,
        min_rtt,
    )
}
