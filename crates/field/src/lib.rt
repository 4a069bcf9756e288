// The line of program inspect, for whoever hunts a fault in the field: an event's replay line, what it answered, and what the connection then stands at.
// No public function has a `requires`; each claims its whole answer and all it was lent.

#![tactic(auto)]

pub mod answer;
pub mod line;
pub mod shared;
pub mod space;
pub mod words;
