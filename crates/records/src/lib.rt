// The memory that holds a connection's sent records and queues of handles, the halving search in it, and the checks of ranges.
// No public function has a `requires`; each claims its whole answer, for every argument and every word of the memory.
#![tactic(auto)]

pub mod memory;
pub mod probe;
pub mod queue;
pub mod ranges;
pub mod scan;
pub mod search;
