// What an event refuses by its arguments, before anything else: the clock, the ranges of numbers, the ranges of an acknowledgement. 01 The stage numbers.
// No public function has a `requires`; each answers its definition.
#![tactic(auto)]

pub mod ack;
pub mod clock;
pub mod packet;
pub mod settings;
