// Refusals 2 and 3 of a packet. 01 The stage numbers
ghost use Rattle.std.specs.Prelude.{◌≡◌};
ghost use Rattle.model.specs.Events.{is_newer, is_packet};

use model::{NUMBERS, Packet};

// The largest size of a packet, in bytes. 01 The stage numbers
const MAX_SIZE: u64 = 65527;

// Whether refusal 2 spares a packet of space n. 01 The stage numbers
#[tactic(auto, unfolding(model::specs::Events::is_packet, model::specs::Numbers::is_size))]
pub fn is_packet(n: u64, p: Packet) -> bool
    ensures { result ≡ is_packet n p }
{
    n < 3
        && 1 <= p.size
        && p.size <= MAX_SIZE
        && p.number < NUMBERS
        && (!p.is_pmtud_probe || p.in_flight)
}

// Whether refusal 3 spares a number. 01 The stage numbers
#[tactic(auto, unfolding(model::specs::Events::is_newer))]
pub fn is_newer(last: Option<u64>, number: u64) -> bool
    ensures { result ≡ is_newer last number }
{
    last.is_none_or(|n| n < number)
}
