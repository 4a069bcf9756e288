// Replays a trace, from standard input or from a file, and prints for each event but ranges replay's line, what was answered and what the connection then keeps.
// 01 'Replay and the host', for whoever hunts a fault in the field.
// What `step` puts out, line after line, is proved to be the definition's text; that it is written is the C library's.
#![tactic(auto)]

ghost use Rattle.std.specs.Prelude.{◌≤◌, IfSome, IfOk, length, take};
ghost use Rattle.playback.specs.Printed.{Sound};
ghost use Rattle.inspect.specs.Inspected.{Inspects};

use anyhow::Context;
use field::line::{blank, put_inspected};
use playback::lent::put_text;
use playback::line::{first, tell};
use playback::{Met, Replay};
use program::sound::SoundReplay;
use program::{Failed, Printer, print_from};
use std::env::{Env, FillError};
use std::io::{Read, Write};
use std::rt::Files;
use std::{fs, io, str};
use trace::text::Text;

const USAGE: &str = "usage: inspect [PATH]
Replays a trace from PATH, or from standard input, and prints a line for each event:
kind, refusal, window, bytes in flight, timer in nanoseconds or -, then name=value
for what it answered, the estimates, CUBIC, counts and the three spaces
";

// One turn, its line put into a buffer that holds any; how many bytes the line has, and whether it is the last.
fn step(bytes: &[u8], line: &mut [u8; 2048], r: &mut Replay) -> (usize, bool)
    requires { Sound r.old }
    ensures { Inspects bytes.now (take result.0 line.new) r.old r.new result.1 }
{
    let at = r.at;
    let met = r.turn(bytes);
    let Met::Event(kind, answered) = met else {
        let mut text = Text::new();
        let ended = tell(&mut text, met, at, r);
        return (put_text(line, 0, text), ended);
    };
    (put_inspected(line, 0, kind, answered, r.state), false)
}

// Each line is written when it is told.
struct EachLine;

impl Printer for EachLine {
    ghost use Rattle.inspect.specs.Inspected.{to_come as text_to_come};

    ghost to_come = { text_to_come };

    fn print<W: Write>(bytes: &[u8], r: &mut SoundReplay, out: &mut W) -> io::Result<bool> {
        let mut line = blank();
        let (n, ended) = step(bytes, &mut line, &mut r.replay);
        out.write_all(first(&line, n))?;
        Ok(ended)
    }
}

fn inspect_from<R: Read, W: Write>(reader: &mut R, name: &str, out: &mut W) -> anyhow::Result<()> {
    match print_from::<EachLine, _, _>(reader, out) {
        Ok(()) => Ok(()),
        Err(Failed::Read(error)) => Err(error).context(name),
        Err(Failed::Write(error)) => Err(error).context("standard output"),
    }
}

fn inspect_path(rt: &(impl Files + Print), path: &str) -> anyhow::Result<()> {
    let mut file = fs::open(rt, path).context(path)?;
    inspect_from(&mut file, path, &mut io::writer(rt))
}

// The argument at i, as text, if there are so many. One that room can't hold is longer than a path may be.
fn argument<'a>(rt: &impl Env, i: usize, room: &'a mut [u8]) -> Option<io::Result<&'a str>>
    ensures { IfSome result (λ given. IfOk given (λ path. length path.now ≤ length room.old)) }
{
    let n = match rt.arg(i, room) {
        Ok(n) => n,
        Err(FillError::NotPresent) => return None,
        Err(FillError::TooLong) => {
            return Some(Err(io::Error::from(io::ErrorKind::InvalidFilename)));
        }
    };
    Some(match str::from_utf8(&room[..n]) {
        Ok(path) => Ok(path),
        Err(_) => Err(io::Error::from(io::ErrorKind::InvalidData)),
    })
}

fn is_given(rt: &impl Env, i: usize) -> bool {
    !matches!(rt.arg(i, &mut [0]), Err(FillError::NotPresent))
}

// The trace at the path that is the only argument, or on standard input.
fn run(rt: &(impl Env + Files + Input + Print + Eprint)) -> anyhow::Result<()> {
    let mut room = [0; 4096];
    let Some(path) = argument(rt, 1, &mut room) else {
        return inspect_from(&mut rt.reader(), "standard input", &mut io::writer(rt));
    };
    if is_given(rt, 2) {
        return eprint!(rt; "{USAGE}").context("standard error");
    }
    let path = path.context("PATH")?;
    if path == "--help" {
        return print!(rt; "{USAGE}").context("standard output");
    }
    inspect_path(rt, path)
}

// What fails is told in a line on standard error.
fn main(rt: HostRuntime) -> anyhow::Result<()> {
    if let Err(error) = run(&rt) {
        eprintln!(rt; "{error:#}").context("standard error")?;
    }
    Ok(())
}
