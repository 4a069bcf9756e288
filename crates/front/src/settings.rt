// Refusal 2 of a datagram size and of the settings. 01 The stage numbers
ghost use Rattle.std.specs.Prelude.{◌≡◌};
ghost use Rattle.model.specs.Numbers.{is_datagram_size, are_settings};

use model::Settings;

// Bytes of a datagram. 01 The stage numbers
const MIN_DATAGRAM_SIZE: u64 = 1200;

const MAX_DATAGRAM_SIZE: u64 = 65527;

// Packets of the initial window, the initial RTT and max ack delay, in nanoseconds. 01 The stage numbers
const MIN_WINDOW_PACKETS: u64 = 2;

const MAX_WINDOW_PACKETS: u64 = 100;

const MIN_INITIAL_RTT: u64 = 1000000;

const MAX_INITIAL_RTT: u64 = 10000000000;

const MAX_MAX_ACK_DELAY: u64 = 16383000000;

// Whether refusal 2 spares a datagram size. 01 The stage numbers
#[tactic(auto, unfolding(model::specs::Numbers::is_datagram_size))]
pub fn is_datagram_size(size: u64) -> bool
    ensures { result ≡ is_datagram_size size }
{
    MIN_DATAGRAM_SIZE <= size && size <= MAX_DATAGRAM_SIZE
}

// Whether refusal 2 spares the settings. 01 The stage numbers
#[tactic(auto, unfolding(model::specs::Numbers::are_settings))]
pub fn are_settings(s: Settings) -> bool
    ensures { result ≡ are_settings s }
{
    is_datagram_size(s.max_datagram_size)
        && MIN_WINDOW_PACKETS <= s.initial_window_packets
        && s.initial_window_packets <= MAX_WINDOW_PACKETS
        && MIN_INITIAL_RTT <= s.initial_rtt.0
        && s.initial_rtt.0 <= MAX_INITIAL_RTT
        && s.max_ack_delay.0 <= MAX_MAX_ACK_DELAY
}
