// The tracker: acknowledgements of a connection, on one lent array of words and a few values; and the loss detection that timeouts share.
// An event decides first, reading only, and stores when nothing can refuse any more. No public function has a `requires`.
#![tactic(auto)]

use arith::time::{Moment, Span};
use connection::SpaceState;
use marks::LostTally;
use model::{HandshakeStatus, OnAckReceivedOutcome, Reordering, Shared};

pub mod ack;
pub mod control;
mod decide;
pub mod detect;
pub mod steps;

// What comes with an acknowledgement beside its ranges. limited: the application limits the sender
#[derive(Clone, Copy)]
pub(crate) struct Received {
    pub time: Moment,
    pub delay: Span,
    pub status: HandshakeStatus,
    pub limited: bool,
}

// A loss detection: its sums, the place where it stops, the space's loss time, and the first record that stays.
#[derive(Clone, Copy)]
pub struct Losses {
    pub tally: LostTally,
    pub stop: usize,
    pub loss_time: Option<Moment>,
    pub keep: usize,
}

// What an acknowledgement or a loss detection has decided.
#[derive(Clone, Copy)]
pub struct Plan {
    // the space and what is shared, as they will be
    pub space: SpaceState,
    pub shared: Shared,
    pub outcome: OnAckReceivedOutcome,
    // places from the old front on: the first record left by step 2, where the scan for losses stops, and the first record that stays
    pub from: usize,
    pub stop: usize,
    pub keep: usize,
}
