// The host's loop: it holds one connection record and lends it to be changed in place, event by event. 01 Replay and the host.
#![tactic(auto)]

ghost use Rattle.drive.specs.Sends.{SentAll};

use host::skavvilet_on_packet_sent;
use serve::Connection;

// Packets of these sizes are sent in Application at a time in nanoseconds, numbered from 0 on; each number is the packet's handle too.
pub fn send_all(start: Connection, time: u64, sizes: &[u64]) -> Connection
    ensures { SentAll start time sizes.now result }
{
    let mut held = start;
    for (i, &size) in sizes.iter().enumerate() {
        let number = i as u64;
        skavvilet_on_packet_sent(&mut held, time, 2, number, size, 7, number, 7);
    }
    held
}
