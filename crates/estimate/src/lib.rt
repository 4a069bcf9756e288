// Round-trip estimates, loss verdicts and timers: the leaves of loss recovery, each a function of plain values.
// No public function has a `requires`; each claims its whole answer, for every argument.
#![tactic(auto)]

pub mod loss;
pub mod rtt;
pub mod timer;
