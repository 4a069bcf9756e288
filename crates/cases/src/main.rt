// Replays the stored traces that its arguments name, and prints for each its name and its lines. The file `stdout` has what the Rust gives for them.
#![tactic(auto)]

ghost use Rattle.std.specs.Prelude.{[], ◌≤◌, IfSome, IfOk, length};
ghost use Rattle.playback.specs.Printed.{Sound, Shows};

use anyhow::Context;
use playback::Replay;
use playback::line::tell;
use program::sound::SoundReplay;
use program::{Failed, Printer, print_from};
use std::env::{Env, FillError};
use std::io::Write;
use std::rt::Files;
use std::{fs, io, str};
use trace::text::Text;

// One turn, its line told; whether it is the last.
fn step(bytes: &[u8], line: &mut Text<96>, r: &mut Replay) -> bool
    requires { Sound r.old }
    ensures { Shows bytes.now [] line.new r.old r.new result }
{
    line.clear();
    let at = r.at;
    let met = r.turn(bytes);
    tell(line, met, at, r)
}

// What can't be written ends the replay.
struct EachTurn;

impl Printer for EachTurn {
    ghost use Rattle.model.specs.Trace.{printed};
    ghost use Rattle.playback.specs.Printed.{lines_from};

    ghost to_come = { λ bytes r. printed (lines_from bytes r) };

    fn print<W: Write>(bytes: &[u8], r: &mut SoundReplay, out: &mut W) -> io::Result<bool> {
        let mut line = Text::new();
        let ended = step(bytes, &mut line, &mut r.replay);
        out.write_all(line.as_bytes())?;
        Ok(ended)
    }
}

// The argument at i, as text, if there are so many. One that room can't hold is longer than a path may be.
fn argument<'a>(rt: &impl Env, i: usize, room: &'a mut [u8]) -> Option<io::Result<&'a str>>
    ensures { IfSome result (λ given. IfOk given (λ path. length path.now ≤ length room.old)) }
{
    let n = match rt.arg(i, room) {
        Ok(n) => n,
        Err(FillError::NotPresent) => return None,
        Err(FillError::TooLong) => {
            return Some(Err(io::Error::from(io::ErrorKind::InvalidFilename)));
        }
    };
    Some(match str::from_utf8(&room[..n]) {
        Ok(path) => Ok(path),
        Err(_) => Err(io::Error::from(io::ErrorKind::InvalidData)),
    })
}

// A trace's name on a line, and its lines; whether there is an argument i.
fn print_case(rt: &(impl Env + Files + Print), i: usize) -> anyhow::Result<bool> {
    let mut room = [0; 4096];
    let Some(path) = argument(rt, i, &mut room) else {
        return Ok(false);
    };
    let path = path.context("PATH")?;
    let mut out = io::writer(rt);
    writeln!(out, "{path}").context("standard output")?;
    let mut file = fs::open(rt, path).context(path)?;
    match print_from::<EachTurn, _, _>(&mut file, &mut out) {
        Ok(()) => Ok(true),
        Err(Failed::Read(error)) => Err(error).context(path),
        Err(Failed::Write(error)) => Err(error).context("standard output"),
    }
}

// A case that fails is told on standard error, and the next one follows.
fn main(rt: HostRuntime) -> anyhow::Result<()> {
    for i in 1..usize::MAX {
        match print_case(&rt, i) {
            Ok(true) => {}
            Ok(false) => return Ok(()),
            Err(error) => eprintln!(rt; "{error:#}").context("standard error")?,
        }
    }
    Ok(())
}
