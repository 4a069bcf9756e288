// What the programs that replay traces share: a trace that is read whole and printed a text at a time.
// No public function has a `requires`; each claims what it reads and writes, by what a reader says that it has left and a writer that it holds,
// and where it speaks to the host itself, which errors it answers and what they tell.
#![tactic(auto)]

ghost use Rattle.std.specs.Prelude.{List, [], ◌∷◌, ℕ, ◌<◌, ◌≤◌, IfSome, IfOk, IfErr, OnOk, length, codes};
ghost use Rattle.std.specs.Io.KnownBytes.{Appends};
ghost use Rattle.model.specs.Trace.{printed, too_long};
ghost use Rattle.playback.specs.declared.Replay.{Replay};
ghost use Rattle.program.specs.Printing.{Prints, PrintsAll};
ghost use Rattle.program.specs.From.{PrintsFrom};
ghost use Rattle.program.specs.Host.{IsToldAs, IsToldOfTrace, IsNoPath};

use crate::sound::SoundReplay;
use anyhow::Context;
use playback::input::{LONGEST, read_trace, room};
use playback::start::begin;
use std::env::{Env, FillError};
use std::io::{Read, Write};
use std::rt::Files;
use std::{fs, io, str};
use trace::line::too_long;

pub mod sound;

// How a program prints a trace: some turns more at a time.
pub trait Printer {
    // what is to come of a trace from where a replay stands on
    ghost to_come: { List ℕ → Replay → List ℕ };

    // One turn at least is printed; whether the last line is.
    fn print<W: Write>(bytes: &[u8], r: &mut SoundReplay, out: &mut W) -> io::Result<bool>
        ensures { IfOk result (λ ended. Prints to_come bytes.now (W.contents out.old) (W.contents out.new) r.old.replay r.new.replay ended) };
}

// What failed: the reader, or the writer.
#[derive(Clone, Copy)]
pub enum Failed {
    Read(io::Error),
    Write(io::Error),
}

// The lines of a trace that is not too long.
fn print_lines<P: Printer, W: Write>(bytes: &[u8], out: &mut W) -> io::Result<()>
    ensures { OnOk result (PrintsAll P.to_come bytes.now (W.contents out.old) (W.contents out.new)) }
{
    let Ok(state) = begin() else {
        return Ok(());
    };
    let mut r = SoundReplay::starting(state);
    let mut ended = false;
    // no list of printings to go over: each says whether it was the last
    while !ended {
        ended = P::print(bytes, &mut r, out)?;
    }
    Ok(())
}

// A trace over 65,536 bytes prints only `too long`. 01 Replay and the host
fn print_trace<P: Printer, W: Write>(bytes: &[u8], out: &mut W) -> io::Result<()>
    ensures lines { OnOk result (length bytes.now ≤ 65536 → PrintsAll P.to_come bytes.now (W.contents out.old) (W.contents out.new)) }
    ensures long { OnOk result (65536 < length bytes.now → Appends (W.contents out.old) (W.contents out.new) (printed (too_long ∷ []))) }
{
    if bytes.len() <= LONGEST {
        return print_lines::<P, _>(bytes, out);
    }
    out.write_all(too_long().as_bytes())
}

// All is read before anything is printed, so that no output of a failed read passes for a whole one.
pub fn print_from<P: Printer, R: Read, W: Write>(reader: &mut R, out: &mut W) -> Result<(), Failed>
    ensures { PrintsFrom P.to_come result (R.remaining reader.old) (R.remaining reader.new) (W.contents out.old) (W.contents out.new) }
{
    let mut room = room();
    let bytes = match read_trace(reader, &mut room) {
        Ok(bytes) => bytes,
        Err(error) => return Err(Failed::Read(error)),
    };
    match print_trace::<P, _>(bytes, out) {
        Ok(()) => Ok(()),
        Err(error) => Err(Failed::Write(error)),
    }
}

// The same, and what failed told by the reader's name, or as standard output.
fn print_named<P: Printer, R: Read, W: Write>(
    reader: &mut R,
    name: &str,
    out: &mut W,
) -> anyhow::Result<()>
    ensures { IfErr result (IsToldOfTrace name.now) }
{
    match print_from::<P, _, _>(reader, out) {
        Ok(()) => Ok(()),
        Err(Failed::Read(error)) => Err(error).context(name),
        Err(Failed::Write(error)) => Err(error).context("standard output"),
    }
}

// The trace at a path.
pub fn print_path<P: Printer>(rt: &(impl Files + Print), path: &str) -> anyhow::Result<()>
    ensures { IfErr result (IsToldOfTrace path.now) }
{
    let mut file = fs::open(rt, path).context(path)?;
    print_named::<P, _, _>(&mut file, path, &mut io::writer(rt))
}

// The argument at i, as text, if there are so many. One that room can't hold is longer than a path may be.
pub fn argument<'a>(rt: &impl Env, i: usize, room: &'a mut [u8]) -> Option<io::Result<&'a str>>
    ensures fits { IfSome result (λ given. IfOk given (λ path. length path.now ≤ length room.old)) }
    ensures failed { IfSome result (λ given. IfErr given IsNoPath) }
{
    let n = match rt.arg(i, room) {
        Ok(n) => n,
        Err(FillError::NotPresent) => return None,
        Err(FillError::TooLong) => {
            return Some(Err(io::Error::from(io::ErrorKind::InvalidFilename)));
        }
    };
    Some(match str::from_utf8(&room[..n]) {
        Ok(path) => Ok(path),
        Err(_) => Err(io::Error::from(io::ErrorKind::InvalidData)),
    })
}

fn is_given(rt: &impl Env, i: usize) -> bool {
    !matches!(rt.arg(i, &mut [0]), Err(FillError::NotPresent))
}

// The trace at the path that is the only argument, or on standard input.
fn print_asked<P: Printer>(
    rt: &(impl Env + Files + Input + Print + Eprint),
    usage: &str,
) -> anyhow::Result<()> {
    let mut room = [0; 4096];
    let Some(path) = argument(rt, 1, &mut room) else {
        return print_named::<P, _, _>(&mut rt.reader(), "standard input", &mut io::writer(rt));
    };
    if is_given(rt, 2) {
        return eprint!(rt; "{usage}").context("standard error");
    }
    let path = path.context("PATH")?;
    if path == "--help" {
        return print!(rt; "{usage}").context("standard output");
    }
    print_path::<P>(rt, path)
}

// What fails is told in a line on standard error.
pub fn run<P: Printer>(
    rt: &(impl Env + Files + Input + Print + Eprint),
    usage: &str,
) -> anyhow::Result<()>
    ensures { IfErr result (IsToldAs (codes "standard error")) }
{
    if let Err(error) = print_asked::<P>(rt, usage) {
        eprintln!(rt; "{error:#}").context("standard error")?;
    }
    Ok(())
}
