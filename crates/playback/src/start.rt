// Where a replay starts: a fresh connection with 01's values, and nothing in its words.
ghost use Rattle.std.specs.Prelude.{◌≡◌};
ghost use Rattle.connection.specs.Answers.{Begins};
ghost use Rattle.playback.specs.Start.{replay_settings, start_with};

use crate::Replay;
use arith::refusal::Refusal;
use arith::time::Span;
use connection::State;
use connection::fresh::fresh;
use model::Settings;
use records::memory::WORDS;
use trace::held::Held;

// A fresh connection with 01's values: bytes, packets, nanoseconds. 01 The stage numbers
pub fn begin() -> Result<State, Refusal>
    ensures { Begins replay_settings result }
{
    fresh(Settings {
        max_datagram_size: 1200,
        initial_window_packets: 10,
        initial_rtt: Span(333000000),
        max_ack_delay: Span(25000000),
    })
}

// At the first byte of a trace.
pub fn start_with(s: State) -> Replay
    ensures { result ≡ start_with s }
{
    Replay {
        at: 0,
        held: Held::new(),
        accepted: 0,
        state: s,
        words: [0; WORDS],
    }
}
