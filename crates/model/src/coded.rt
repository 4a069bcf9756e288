// Plain numbers taken apart, as a trace and a host's calls encode them. 01 Replay and the host.
ghost use Rattle.std.specs.Prelude.{◌≡◌};
ghost use Rattle.model.specs.Trace.{odd, status_of, packet_of, skipped_of};
ghost use Rattle.model.specs.Coded.{settings_of};

use crate::{HandshakeStatus, Packet, Settings};
use arith::time::Span;

// Whether bit 0 is set.
pub fn is_odd(b: u8) -> bool
    ensures { result ≡ odd b }
{
    b % 2 == 1
}

// 1 keys, 2 verified, 4 completed.
impl From<u8> for HandshakeStatus {
    ghost from_gives = { λ b s. s ≡ status_of b };

    fn from(b: u8) -> HandshakeStatus {
        HandshakeStatus {
            has_handshake_keys: is_odd(b),
            peer_verified_address: is_odd(b / 2),
            completed: is_odd(b / 4),
        }
    }
}

// Flags: 1 eliciting, 2 in flight, 4 data, 8 probe.
#[tactic(auto, unfolding(crate::specs::Trace::packet_of))]
pub fn packet_of(number: u64, size: u64, flags: u8, handle: u64) -> Packet
    ensures { result ≡ packet_of number size flags handle }
{
    Packet {
        number,
        size,
        ack_eliciting: is_odd(flags),
        in_flight: is_odd(flags / 2),
        has_data: is_odd(flags / 4),
        is_pmtud_probe: is_odd(flags / 8),
        handle,
    }
}

// A skipped number; all ones: none.
#[tactic(auto, unfolding(crate::specs::Trace::skipped_of))]
pub fn skipped_of(n: u64) -> Option<u64>
    ensures { result ≡ skipped_of n }
{
    (n != u64::MAX).then_some(n)
}

// Spans in nanoseconds.
#[tactic(auto, unfolding(crate::specs::Coded::settings_of))]
pub fn settings_of(size: u64, packets: u64, rtt: u64, delay: u64) -> Settings
    ensures { result ≡ settings_of size packets rtt delay }
{
    Settings {
        max_datagram_size: size,
        initial_window_packets: packets,
        initial_rtt: Span(rtt),
        max_ack_delay: Span(delay),
    }
}
