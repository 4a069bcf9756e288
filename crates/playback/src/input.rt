// A trace's bytes, read to the end.
ghost use Rattle.std.specs.Prelude.{◌≡◌, ◌<◌, IfOk, length, replicate, take};
ghost use Rattle.std.specs.Io.KnownBytes.{Consumes, IsAtEnd};
ghost use Rattle.playback.specs.Input.{Within};

use std::io;
use std::io::Read;

// The longest trace, in bytes. 01 Replay and the host
pub const LONGEST: usize = 65536;

// Room for the longest trace, and for one byte more, which tells a longer one.
pub fn room() -> [u8; 65537]
    ensures { result ≡ replicate 65537 0 }
{
    [0; 65537]
}

// All that is there, as far as the buffer reaches: how many bytes were read. A failed read is told apart from the end.
pub fn read_all<R: Read>(reader: &mut R, buf: &mut [u8]) -> io::Result<usize>
    ensures within { Within result buf.new }
    ensures bytes { IfOk result (λ n. Consumes (R.remaining reader.old) (R.remaining reader.new) (take n buf.new)) }
    ensures whole { IfOk result (λ n. n < length buf.new → IsAtEnd (R.remaining reader.new)) }
{
    let mut n = 0;
    // std's read_to_end claims too little of a failed read
    while n < buf.len() {
        let more = reader.read(&mut buf[n..])?;
        if more == 0 {
            return Ok(n);
        }
        n += more;
    }
    Ok(n)
}

// A trace's bytes, in a room that holds one byte more than the longest trace has.
pub fn read_trace<'a, R: Read>(reader: &mut R, room: &'a mut [u8]) -> io::Result<&'a [u8]>
    ensures bytes { IfOk result (λ trace. Consumes (R.remaining reader.old) (R.remaining reader.new) trace.now) }
    ensures whole { IfOk result (λ trace. length trace.now < length room.old → IsAtEnd (R.remaining reader.new)) }
{
    let n = read_all(reader, room)?;
    Ok(&room[..n])
}
