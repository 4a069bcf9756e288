// Step 1 of an acknowledgement, decided and not yet stored: which records the ranges hold, what they come to, and CUBIC over those newly acked.
// No public function has a `requires`; each claims its whole answer, for every argument and every word of the memory.
#![tactic(auto)]

ghost use Rattle.std.specs.Prelude.{◌≡◌};
ghost use Rattle.acks.specs.Places.{places_of};

pub mod cover;
pub mod each;
pub mod meet;

// The places that are looked over: at most 256, and none after the last record that a range holds.
pub fn places(len: usize, last: usize) -> usize
    ensures { result ≡ places_of len last }
{
    records::memory::held(len).min(last)
}
