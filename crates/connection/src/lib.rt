// A connection's state, and the events that neither acknowledge nor lose packets. Its records and queues stand in one lent array of words.
// No public function has a `requires`; each claims its whole answer, for every argument and every word of the memory.
#![tactic(auto)]

ghost use Rattle.std.specs.Prelude.{◌<◌, ◌≤◌};
ghost use Rattle.model.specs.Numbers.{capacity};

use arith::refusal::Refusal;
use model::{Epoch, Shared};

pub mod discard;
pub mod fresh;
pub mod parts;
pub mod readout;
pub mod resize;
pub mod sent;
pub mod take;

// Where a space's records and queues lie in the words, and what the space keeps beside them.
#[derive(Clone, Copy)]
pub struct SpaceState {
    // the oldest record's slot, and how many records there are
    pub head: usize,
    pub len: usize,
    // how many handles wait in each queue
    pub acked: usize,
    pub lost_ack: usize,
    pub lost_pto: usize,
    pub epoch: Epoch,
}

// A space whose records lie in its ring: any front and any count are read as such (`parts::normal`).
#[derive(Clone, Copy)]
pub struct Normal {
    pub space: SpaceState,
    ghost head_in: { space.head < capacity },
    ghost len_in: { space.len ≤ capacity },
}

// A connection, but for its words.
#[derive(Clone, Copy)]
pub struct State {
    pub initial: SpaceState,
    pub handshake: SpaceState,
    pub application: SpaceState,
    pub shared: Shared,
}

// What an event answers, and the state after it; after a refusal it is the state before.
#[derive(Clone, Copy)]
pub struct Answer<T> {
    pub outcome: Result<T, Refusal>,
    pub state: State,
}
