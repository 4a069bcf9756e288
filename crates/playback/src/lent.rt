// A turn on words that are lent: a connection's, and those of the ranges held, of which any number may be held. What it has to tell is put into a
// lent buffer from any place on. 01 'Replay and the host'.
ghost use Rattle.std.specs.Prelude.{◌≡◌, replicate, take};
ghost use Rattle.records.specs.View.{all_words};
ghost use Rattle.trace.specs.Held.{held_words};
ghost use Rattle.trace.specs.Put.{Put};
ghost use Rattle.trace.specs.Reading.{found_at, kind_at, next_at};
ghost use Rattle.playback.specs.Lent.{words_after, HoldsLent, AnswersLent, TurnsLent, TellsLent, standing_first};

use crate::line::{first, is_last, met_line};
use crate::{Met, counted};
use connection::State;
use play::play;
use records::memory::Words;
use trace::held::{WORDS, hold};
use trace::put::put_word;
use trace::read::{find, kind_at, next};
use trace::text::Text;
use trace::{Event, Found, Range};

// The words of 65 ranges. 01 Replay and the host
pub type Ranges = [u64; WORDS];

// Where a replay stands in its trace.
#[derive(Clone, Copy)]
pub struct Standing {
    // the offset of the next kind byte
    pub at: usize,
    // how many words of ranges are held
    pub held: usize,
    // accepted events but ranges
    pub accepted: u64,
    pub state: State,
}

// What was met, and where the replay stands after it.
#[derive(Clone, Copy)]
pub struct Turned {
    pub met: Met,
    pub replay: Standing,
}

// How far a replay is, and how much of it is told.
#[derive(Clone, Copy)]
pub struct Progress {
    // the last line is told
    pub ended: bool,
    // bytes
    pub filled: usize,
    pub replay: Standing,
}

// At the first byte of a trace.
pub fn start_with(s: State) -> Standing
    ensures { result ≡ standing_first s }
{
    Standing {
        at: 0,
        held: 0,
        accepted: 0,
        state: s,
    }
}

// Words with no records and no handles in them.
pub fn no_words() -> Words
    ensures { result ≡ replicate all_words 0 }
{
    [0; records::memory::WORDS]
}

// Words with no ranges in them.
pub fn no_ranges() -> Ranges
    ensures { result ≡ replicate held_words 0 }
{
    [0; WORDS]
}

// An ack empties the held ranges, a refused one too. 01 Replay and the host
fn words_after(e: Event, held: usize) -> usize
    ensures { result ≡ words_after e held }
{
    if let Event::Ack(_) = e { 0 } else { held }
}

// A range is held.
fn hold_range(ranges: &mut Ranges, r: Standing, range: Range, next: usize) -> Turned
    ensures { HoldsLent range next r result ranges.old ranges.new }
{
    let held = hold(ranges, r.held, range);
    Turned {
        met: Met::Held,
        replay: Standing {
            at: next,
            held,
            ..r
        },
    }
}

// An event is played, an ack on the ranges that are held.
fn play_event(
    m: &mut Words,
    ranges: &Ranges,
    r: Standing,
    e: Event,
    kind: u8,
    next: usize,
) -> Turned
    ensures { AnswersLent e kind next r result ranges.now m.old m.new }
{
    let played = play(m, r.state, e, &ranges[..r.held.min(WORDS)]);
    Turned {
        met: Met::Event(kind, played.outcome),
        replay: Standing {
            at: next,
            held: words_after(e, r.held),
            accepted: counted(played.outcome, r.accepted),
            state: played.state,
        },
    }
}

// What stands where the replay stands, held or played. At the end of the trace, and where nothing known stands, it stays.
pub fn turn(bytes: &[u8], m: &mut Words, ranges: &mut Ranges, r: Standing) -> Turned
    ensures { TurnsLent (found_at bytes.now r.at) (kind_at bytes.now r.at) (next_at bytes.now r.at) r result ranges.old ranges.new m.old m.new }
{
    let kind = kind_at(bytes, r.at);
    let next = next(bytes, r.at);
    match find(bytes, r.at) {
        Found::End => Turned {
            met: Met::End,
            replay: r,
        },
        Found::Bad => Turned {
            met: Met::Bad,
            replay: r,
        },
        Found::Range(range) => hold_range(ranges, r, range, next),
        Found::Event(e) => play_event(m, ranges, r, e, kind, next),
    }
}

// The first so many bytes of a line put from a place on; the place after it. What does not fit is dropped.
pub fn put_line(out: &mut [u8], at: usize, bytes: &[u8], length: usize) -> usize
    ensures { Put out.old at (take length bytes.now) out.new result }
{
    put_word(out, at, first(bytes, length))
}

// A line that is a text, the same.
pub fn put_text(out: &mut [u8], at: usize, line: Text<96>) -> usize
    ensures { Put out.old at line out.new result }
{
    put_word(out, at, line.as_bytes())
}

// What was met at an offset, told behind the bytes that are filled. A range is not told.
pub fn tell(out: &mut [u8], filled: usize, at: usize, t: Turned) -> Progress
    ensures { TellsLent t at filled result out.old out.new }
{
    let line = met_line(t.met, at, t.replay.accepted, &t.replay.state);
    Progress {
        ended: is_last(t.met),
        filled: put_text(out, filled, line),
        replay: t.replay,
    }
}
