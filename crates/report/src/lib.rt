// What a program that tries cases writes on standard output. Names and words are bytes, but for the name that `told`
// takes, and go out as they are.
#![tactic(auto)]

use basics::Refusal;
use std::fmt::Display;
use std::io;

// `  case:`, as the line of a case begins.
pub fn case(rt: &impl Print, what: &[u8]) -> io::Result<()> {
    rt.print("  ")?;
    rt.write_all(what)?;
    rt.print(":")
}

// ` name=7`, as a value stands in a line.
pub fn value(rt: &impl Print, name: &[u8], n: impl Display + Copy) -> io::Result<()> {
    named(rt, name)?;
    rt.print(n)
}

fn named(rt: &impl Print, name: &[u8]) -> io::Result<()> {
    rt.print(" ")?;
    rt.write_all(name)?;
    rt.print("=")
}

// ` answer=12`, by the paper's number.
pub fn answer<T: Copy>(rt: &impl Print, answer: Result<T, Refusal>) -> io::Result<()> {
    told_in_bytes(rt, b"answer", answer)
}

// ` issue=12`: the same by the name of the call.
pub fn told_in_bytes<T: Copy>(
    rt: &impl Print,
    call: &[u8],
    answer: Result<T, Refusal>,
) -> io::Result<()> {
    value(rt, call, basics::number(answer))
}

// The same at once and all as text, for a handle that takes text alone.
pub fn told<T: Copy>(rt: &impl Print, call: &str, answer: Result<T, Refusal>) -> io::Result<()> {
    print!(rt; " {call}={}", basics::number(answer))
}

// What became of the state, at the end of a line.
pub fn state(rt: &impl Print, as_it_came: bool) -> io::Result<()> {
    if as_it_came {
        rt.println(", state as it came")
    } else {
        rt.println(", state changed")
    }
}

// ` name=5,0`, as counts stand in a line.
pub fn counts<T: Display>(rt: &impl Print, name: &[u8], counts: &[T]) -> io::Result<()> {
    named(rt, name)?;
    for (i, x) in counts.iter().enumerate() {
        if 0 < i {
            rt.print(",")?;
        }
        print!(rt; "{x}")?;
    }
    Ok(())
}

// Bytes in hexadecimal.
pub fn hex(rt: &impl Print, s: &[u8]) -> io::Result<()> {
    for b in s {
        print!(rt; "{b:02x}")?;
    }
    Ok(())
}

#[cfg(test)]
mod tests {
    use super::*;
    use std::cell::Cell;
    use std::fmt;
    use std::fmt::Write;
    use std::io::{Error, ErrorKind};

    // A handle that takes this text, once and whole, and no bytes.
    #[derive(Drop)]
    struct Takes<'a> {
        text: Cell<&'a str>,
    }

    // What of a text is still to come.
    #[derive(Drop)]
    struct Rest<'a> {
        text: &'a str,
    }

    impl<'a> Write for Rest<'a> {
        fn write_str(&mut self, s: &str) -> fmt::Result {
            self.text = self.text.strip_prefix(s).ok_or(fmt::Error)?;
            Ok(())
        }
    }

    impl<'a> Print for Takes<'a> {
        fn print<D: Display + Drop>(&self, value: D) -> io::Result<()> {
            let mut rest = Rest {
                text: self.text.replace(""),
            };
            match write!(rest, "{value}") {
                Ok(()) => nothing_left(rest.text),
                Err(_) => Err(Error::from(ErrorKind::InvalidData)),
            }
        }

        fn println<D: Display + Drop>(&self, _: D) -> io::Result<()> {
            Err(Error::from(ErrorKind::Unsupported))
        }

        fn write_all(&self, _: &[u8]) -> io::Result<()> {
            Err(Error::from(ErrorKind::Unsupported))
        }
    }

    fn nothing_left(text: &str) -> io::Result<()> {
        if text.is_empty() {
            Ok(())
        } else {
            Err(Error::from(ErrorKind::InvalidData))
        }
    }

    fn writes<T: Copy>(text: &str, call: &str, answer: Result<T, Refusal>) -> io::Result<()> {
        let rt = Takes {
            text: Cell::new(text),
        };
        told(&rt, call, answer)?;
        nothing_left(rt.text.get())
    }

    #[test]
    fn told_is_text_at_once() -> io::Result<()> {
        writes(" issue=0", "issue", Ok::<u64, Refusal>(7))?;
        writes(
            " última=3",
            "última",
            Err::<u64, Refusal>(Refusal::QueueFull),
        )?;
        writes(" =17", "", Err::<(), Refusal>(Refusal::BadStart))
    }
}
