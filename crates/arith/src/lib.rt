// Time, rounding and the cube root: whole numbers up to 2^53-1, and floats where CUBIC has them.
// No public function has a `requires`; each claims its whole answer, for every argument.
#![tactic(auto)]

pub mod exports;
pub mod refusal;
pub mod root;
pub mod round;
pub mod time;
