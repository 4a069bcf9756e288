// Replays a trace, from standard input or from a file, and prints a line for each event but ranges. 01 'Replay and the host'.
// What `fill` puts out, chunk after chunk, is proved to be the definition's lines; that they are written is the C library's.
#![tactic(auto)]

ghost use Rattle.std.specs.Prelude.{[], ◌+◌, ◌≤◌, IfSome, IfOk, length};
ghost use Rattle.playback.specs.Printed.{Sound, Shows};

use anyhow::Context;
use play::Told;
use playback::line::{event_line, tell};
use playback::{Met, Replay};
use program::sound::SoundReplay;
use program::{Failed, Printer, print_from};
use std::env::{Env, FillError};
use std::io::{Read, Write};
use std::rt::Files;
use std::{fs, io, str};
use trace::text::Text;

// The longest line, and what is put out at a time, in bytes.
const LINE: usize = 96;

const CHUNK: usize = 65536;

const USAGE: &str = "usage: replay [PATH]
Replays a trace from PATH, or from standard input, and prints a line for each event:
kind, refusal, window, bytes in flight, timer in nanoseconds or -
";

// The refusal's number of an accepted event. 01 The stage numbers
const ACCEPTED: u64 = 0;

// One turn, told behind what the chunk has; whether its line is the last. An acknowledgement's answer is taken apart: an
// accepted outcome goes on, anything else prints its refusal. 01 Replay and the host
fn step(bytes: &[u8], chunk: &mut Text<CHUNK>, r: &mut Replay) -> bool
    requires { Sound r.old × (length chunk.old + 96 ≤ 65536) }
    ensures { Shows bytes.now chunk.old chunk.new r.old r.new result }
{
    let at = r.at;
    let met = r.turn(bytes);
    let Met::Event(kind, answered) = met else {
        return tell(chunk, met, at, r);
    };
    let Ok(Told::Ack(_)) = answered else {
        return tell(chunk, met, at, r);
    };
    chunk.put_word(event_line(kind, ACCEPTED, r.state).as_bytes());
    false
}

// Turns until the last line is told, or until the next might not fit.
fn fill(bytes: &[u8], chunk: &mut Text<CHUNK>, r: &mut Replay) -> bool
    requires { Sound r.old }
    ensures { Shows bytes.now [] chunk.new r.old r.new result }
{
    chunk.clear();
    let mut ended = step(bytes, chunk, r);
    // until the chunk has no room for a line: a turn says what it put, no list of turns does
    while !ended && chunk.len() <= CHUNK - LINE {
        ended = step(bytes, chunk, r);
    }
    ended
}

struct Chunks;

impl Printer for Chunks {
    ghost use Rattle.model.specs.Trace.{printed};
    ghost use Rattle.playback.specs.Printed.{lines_from};

    ghost to_come = { λ bytes r. printed (lines_from bytes r) };

    fn print<W: Write>(bytes: &[u8], r: &mut SoundReplay, out: &mut W) -> io::Result<bool> {
        let mut chunk = Text::new();
        let ended = fill(bytes, &mut chunk, &mut r.replay);
        out.write_all(chunk.as_bytes())?;
        Ok(ended)
    }
}

fn replay_from<R: Read, W: Write>(reader: &mut R, name: &str, out: &mut W) -> anyhow::Result<()> {
    match print_from::<Chunks, _, _>(reader, out) {
        Ok(()) => Ok(()),
        Err(Failed::Read(error)) => Err(error).context(name),
        Err(Failed::Write(error)) => Err(error).context("standard output"),
    }
}

fn replay_path(rt: &(impl Files + Print), path: &str) -> anyhow::Result<()> {
    let mut file = fs::open(rt, path).context(path)?;
    replay_from(&mut file, path, &mut io::writer(rt))
}

// The argument at i, as text, if there are so many. One that room can't hold is longer than a path may be.
fn argument<'a>(rt: &impl Env, i: usize, room: &'a mut [u8]) -> Option<io::Result<&'a str>>
    ensures { IfSome result (λ given. IfOk given (λ path. length path.now ≤ length room.old)) }
{
    let n = match rt.arg(i, room) {
        Ok(n) => n,
        Err(FillError::NotPresent) => return None,
        Err(FillError::TooLong) => {
            return Some(Err(io::Error::from(io::ErrorKind::InvalidFilename)));
        }
    };
    Some(match str::from_utf8(&room[..n]) {
        Ok(path) => Ok(path),
        Err(_) => Err(io::Error::from(io::ErrorKind::InvalidData)),
    })
}

fn is_given(rt: &impl Env, i: usize) -> bool {
    !matches!(rt.arg(i, &mut [0]), Err(FillError::NotPresent))
}

// The trace at the path that is the only argument, or on standard input.
fn run(rt: &(impl Env + Files + Input + Print + Eprint)) -> anyhow::Result<()> {
    let mut room = [0; 4096];
    let Some(path) = argument(rt, 1, &mut room) else {
        return replay_from(&mut rt.reader(), "standard input", &mut io::writer(rt));
    };
    if is_given(rt, 2) {
        return eprint!(rt; "{USAGE}").context("standard error");
    }
    let path = path.context("PATH")?;
    if path == "--help" {
        return print!(rt; "{USAGE}").context("standard output");
    }
    replay_path(rt, path)
}

// What fails is told in a line on standard error.
fn main(rt: HostRuntime) -> anyhow::Result<()> {
    if let Err(error) = run(&rt) {
        eprintln!(rt; "{error:#}").context("standard error")?;
    }
    Ok(())
}
