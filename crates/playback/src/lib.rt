// A trace replayed, a turn for each range and each event. 01 'Replay and the host'.
// No public function has a `requires`; each claims its whole answer, of a read by what the reader says that it has left.
#![tactic(auto)]

ghost use Rattle.std.specs.Prelude.{◌≡◌};
ghost use Rattle.trace.specs.Reading.{found_at, kind_at, next_at, kept_by};
ghost use Rattle.play.specs.Answers.{answered_says};
ghost use Rattle.playback.specs.Turns.{count_with, holding, Plays, Turns};

use arith::refusal::Refusal;
use connection::State;
use play::answers::is_accepted;
use play::{Told, play};
use records::memory::Words;
use trace::held::Held;
use trace::read::{find, kind_at, next};
use trace::{Event, Found, Range};

pub mod input;
pub mod lent;
pub mod line;
pub mod start;

// A connection with its words, and where it stands in the trace that it replays.
#[derive(Clone, Copy)]
pub struct Replay {
    // the offset of the next kind byte
    pub at: usize,
    pub held: Held,
    // accepted events but ranges
    pub accepted: u64,
    pub state: State,
    pub words: Words,
}

// What a turn met: the trace's end, no known kind with a whole body, a range, or an event of a kind with its answer.
// A kind is its byte, which the line shows.
#[derive(Clone, Copy)]
pub enum Met {
    End,
    Bad,
    Held,
    Event(u8, Result<Told, Refusal>),
}

// The count with this answer. No trace brings it to its bound.
fn counted(a: Result<Told, Refusal>, n: u64) -> u64
    ensures { result ≡ count_with (answered_says a) n }
{
    if is_accepted(a) {
        n.saturating_add(1)
    } else {
        n
    }
}

// An ack empties the held ranges, a refused one too. 01 Replay and the host
#[tactic(auto, unfolding(trace::specs::Reading::kept_by))]
fn pass(held: &mut Held, e: Event)
    ensures { held.new ≡ kept_by e held.old }
{
    if let Event::Ack(_) = e {
        held.clear();
    }
}

impl Replay {
    fn hold(&mut self, range: Range, next: usize)
        ensures { self.new ≡ holding range next self.old }
    {
        self.held.hold(range);
        self.at = next;
    }

    // An event is played, an ack on the ranges that are held.
    fn play(&mut self, e: Event, next: usize) -> Result<Told, Refusal>
        ensures { Plays e next result self.old self.new }
    {
        let played = play(&mut self.words, self.state, e, self.held.as_words());
        pass(&mut self.held, e);
        self.at = next;
        self.accepted = counted(played.outcome, self.accepted);
        self.state = played.state;
        played.outcome
    }

    // What stands where the replay stands, held or played. At the end of the trace, and where nothing known stands, it stays.
    pub fn turn(&mut self, bytes: &[u8]) -> Met
        ensures { Turns (found_at bytes.now self.old.at) (kind_at bytes.now self.old.at) (next_at bytes.now self.old.at) result self.old self.new }
    {
        let kind = kind_at(bytes, self.at);
        let next = next(bytes, self.at);
        match find(bytes, self.at) {
            Found::End => Met::End,
            Found::Bad => Met::Bad,
            Found::Range(range) => {
                self.hold(range, next);
                Met::Held
            }
            Found::Event(e) => Met::Event(kind, self.play(e, next)),
        }
    }
}
