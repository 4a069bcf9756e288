// The lines that a replay prints, each with its newline. 01 'Replay and the host'.
ghost use Rattle.std.specs.Prelude.{◌≡◌, [], ◌∷◌};
ghost use Rattle.model.specs.Trace.{shows, bad_at, end, too_long, printed};

use crate::text::Text;
use arith::time::Moment;

// An event's line: kind, refusal, window, in flight, timer or `-`.
pub fn shown(kind: u8, refusal: u64, window: u64, bytes: u64, timer: Option<Moment>) -> Text<96>
    ensures { result ≡ printed (shows kind refusal window bytes timer ∷ []) }
{
    let mut line = Text::new();
    line.put_shown(kind, refusal, window, bytes, timer);
    line.put_byte(b'\n');
    line
}

// No known kind with a whole body stands at an offset.
#[tactic(auto, unfolding(model::specs::Trace::printed))]
pub fn bad_at(at: u64) -> Text<96>
    ensures { result ≡ printed (bad_at at ∷ []) }
{
    let mut line = Text::new();
    line.put_word(b"bad at ");
    line.put_decimal(at);
    line.put_byte(b'\n');
    line
}

// The end, with the count of accepted events but ranges.
#[tactic(auto, unfolding(model::specs::Trace::printed))]
pub fn end(n: u64) -> Text<96>
    ensures { result ≡ printed (end n ∷ []) }
{
    let mut line = Text::new();
    line.put_word(b"end ");
    line.put_decimal(n);
    line.put_byte(b'\n');
    line
}

// A trace of more than 65,536 bytes.
#[tactic(auto, unfolding(model::specs::Trace::printed))]
pub fn too_long() -> Text<96>
    ensures { result ≡ printed (too_long ∷ []) }
{
    let mut line = Text::new();
    line.put_word(b"too long\n");
    line
}
