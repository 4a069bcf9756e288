// A replay that stands where a print may begin.
ghost use Rattle.std.specs.Prelude.{◌≡◌, ◌≤◌};
ghost use Rattle.playback.specs.Start.{start_with};

use connection::State;
use playback::Replay;
use playback::start::start_with;

// It has accepted no more events than it passed bytes, as every replay of a trace has: its count comes to no bound, so the last line can tell it.
#[derive(Clone, Copy)]
pub struct SoundReplay {
    pub replay: Replay,
    ghost few: { replay.accepted ≤ replay.at },
}

impl SoundReplay {
    // At the first byte of a trace.
    pub fn starting(s: State) -> Self
        ensures { result.replay ≡ start_with s }
    {
        SoundReplay {
            replay: start_with(s),
        }
    }
}
