// Draining and loss detection over the records of a space, read only: an event decides with these what it will store.
// Places count from the front; a flag tells whether a range of the ack holds the record at that place.
// No public function has a `requires`; each claims its whole answer, for every argument and every word of the memory.
#![tactic(auto)]

pub mod detect;
pub mod drain;
