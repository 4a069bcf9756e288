// Calls of public functions that no other crate here calls: `program::run` is this program, the others stand in its tests.
#![tactic(auto)]

use program::sound::SoundReplay;
use program::{Printer, run};
use std::io;
use std::io::Write;

// What is printed is the trace's own bytes.
struct Echo;

impl Printer for Echo {
    ghost to_come = { λ bytes r. bytes };

    fn print<W: Write>(bytes: &[u8], _r: &mut SoundReplay, out: &mut W) -> io::Result<bool> {
        out.write_all(bytes)?;
        Ok(true)
    }
}

fn main(rt: HostRuntime) -> anyhow::Result<()> {
    run::<Echo>(&rt, "usage: callers [PATH]\n")
}

#[cfg(test)]
mod connection_parts {
    use arith::refusal::Refusal;
    use connection::State;
    use connection::parts::settled;
    use model::Shared;
    use playback::start::begin;
    use std::test::Fail;

    #[test]
    fn settles_what_was_decided(rt: HostRuntime) -> Result<(), Fail> {
        let before = begin()?;
        let after = State {
            shared: Shared {
                pto_count: 3,
                ..before.shared
            },
            ..before
        };
        let accepted = settled(before, Ok(after));
        assert_eq!(rt; accepted.outcome, Ok(()));
        assert_eq!(rt; accepted.state.shared.pto_count, 3);
        let refused = settled(before, Err(Refusal::Domain));
        assert_eq!(rt; refused.outcome, Err(Refusal::Domain));
        assert_eq!(rt; refused.state.shared.pto_count, 0);
        Ok(())
    }
}

#[cfg(test)]
mod field_words {
    use arith::round::TimeThreshold;
    use arith::time::Moment;
    use field::words::{Value, put_value};
    use trace::text::Text;

    #[test]
    fn puts_values_behind_a_text(rt: HostRuntime) {
        let mut line = Text::<128>::new();
        put_value(&mut line, b"", b"number", 1200);
        put_value(&mut line, b" a.", b"set", Some(7));
        put_value(&mut line, b" a.", b"unset", None::<u64>);
        put_value(&mut line, b" ", b"moment", Some(Moment(33)));
        put_value(&mut line, b" ", b"bit", true);
        put_value(&mut line, b" ", b"float", 1.0);
        put_value(&mut line, b" ", b"threshold", TimeThreshold::NineEighths);
        line.put_byte(b' ');
        9.put(&mut line);
        let want =
            b"number=1200 a.set=7 a.unset=- moment=33 bit=1 float=3ff0000000000000 threshold=9/8 9";
        assert_eq!(rt; line.as_bytes(), want.as_slice());
    }

    #[test]
    fn drops_what_does_not_fit(rt: HostRuntime) {
        let mut line = Text::<8>::new();
        put_value(&mut line, b"", b"number", 1200);
        assert_eq!(rt; line.as_bytes(), b"number=1".as_slice());
    }
}

#[cfg(test)]
mod program_host {
    use crate::Echo;
    use program::{argument, print_path};
    use std::env::{Env, FillError};
    use std::io::ErrorKind;
    use std::test::Fail;

    // A host that gives a path, what is no text, and what fits no room.
    struct Given;

    impl Env for Given {
        fn arg(&self, i: usize, buf: &mut [u8]) -> Result<usize, FillError> {
            let given: &[u8] = match i {
                1 => b"a.trace",
                2 => &[255],
                3 => return Err(FillError::TooLong),
                _ => return Err(FillError::NotPresent),
            };
            if buf.len() < given.len() {
                return Err(FillError::TooLong);
            }
            buf[..given.len()].copy_from_slice(given);
            Ok(given.len())
        }

        fn var(&self, _name: &str, _buf: &mut [u8]) -> Result<usize, FillError> {
            Err(FillError::NotPresent)
        }

        fn var_at(&self, _i: usize, _buf: &mut [u8]) -> Result<usize, FillError> {
            Err(FillError::NotPresent)
        }
    }

    #[test]
    fn takes_an_argument(rt: HostRuntime) -> Result<(), Fail> {
        let mut room = [0; 16];
        let path = argument(&Given, 1, &mut room).ok_or("none at 1")??;
        assert_eq!(rt; path, "a.trace");
        for (i, want) in [(2, ErrorKind::InvalidData), (3, ErrorKind::InvalidFilename)] {
            let given = argument(&Given, i, &mut room).ok_or("none")?;
            assert_eq!(rt; given.err().ok_or("no error")?.kind(), want, "at {i}");
        }
        assert!(rt; argument(&Given, 4, &mut room).is_none());
        Ok(())
    }

    #[test]
    fn tells_a_path_that_is_not_there(rt: HostRuntime) -> Result<(), Fail> {
        print_path::<Echo>(&rt, "/dev/null")?;
        let missing = print_path::<Echo>(&rt, "no/such/trace");
        let told = missing.err().ok_or("no error")?.to_string(rt.alloc())?;
        assert_eq!(rt; told.as_str(), "no/such/trace");
        Ok(())
    }
}
