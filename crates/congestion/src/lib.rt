// The CUBIC congestion controller, over model's Congestion by value. 01 'CUBIC (001)'; RFC 9438.
// No public function has a `requires`; each claims its whole answer, for every argument.
#![tactic(auto)]

use model::Congestion;

pub mod curve;
pub mod growth;
pub mod recovery;
