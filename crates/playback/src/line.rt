// An event's line, and what a turn has to tell, put behind what was told before. 01 'Replay and the host'.
ghost use Rattle.std.specs.Prelude.{List, [], ◌∷◌, ◌≡◌, ℕ, take};
ghost use Rattle.model.specs.Trace.{printed};
ghost use Rattle.connection.specs.View.{connection_of};
ghost use Rattle.playback.specs.Printed.{shown_of, line_met, is_last, Tells};

use crate::{Met, Replay};
use connection::State;
use connection::readout::{bytes_in_flight, cwnd, loss_detection_timer};
use play::answers::refusal_number;
use trace::line::{bad_at, end, shown};
use trace::text::Text;

// An event's line, told from the state after it: kind, refusal, window, in flight, timer or `-`. 01 Replay and the host
pub fn event_line(kind: u8, refusal: u64, s: State) -> Text<96>
    ensures { (m : List ℕ) → result ≡ printed (shown_of kind refusal (connection_of m s) ∷ []) }
{
    shown(
        kind,
        refusal,
        cwnd(s),
        bytes_in_flight(s),
        loss_detection_timer(s),
    )
}

// The first n bytes.
pub fn first(bytes: &[u8], n: usize) -> &[u8]
    ensures { result.now ≡ take n bytes.now }
{
    &bytes[..n.min(bytes.len())]
}

pub(crate) fn is_last(met: Met) -> bool
    ensures { result ≡ is_last met }
{
    matches!(met, Met::End | Met::Bad)
}

// The line of what was met at an offset, told from the events accepted and the state after it; a range has none.
#[tactic(auto, unfolding(model::specs::Trace::printed))]
pub(crate) fn met_line(met: Met, at: usize, accepted: u64, s: &State) -> Text<96>
    ensures { (m : List ℕ) → result ≡ printed (line_met met at accepted (connection_of m s.now)) }
{
    match met {
        Met::End => end(accepted),
        Met::Bad => bad_at(at as u64),
        Met::Held => Text::new(),
        Met::Event(kind, answered) => event_line(kind, refusal_number(answered), *s),
    }
}

// What was met, told; whether its line is the last.
pub fn tell<const N: usize>(out: &mut Text<N>, met: Met, at: usize, r: &Replay) -> bool
    ensures { Tells N met at r.now out.old out.new result }
{
    out.put_word(met_line(met, at, r.accepted, &r.state).as_bytes());
    is_last(met)
}
