// The answers: the number, and what came with it. A refusal's line says whether everything that was lent stayed as it was.
use bitcask::{Counts, Used};
use keycode::parts::clip;
use keycode::{Part, Refusal, number_of};
use mvcc::{Handle, KeyValue, Versions};
use std::fmt;
use std::fmt::Write;

// Standard output, by hand: a run is lent a buffer and nothing to print by, and it cannot fail, so a script goes on where nothing is taken.
#[derive(Clone, Copy)]
struct Output;

impl Write for Output {
    fn write_str(&mut self, text: &str) -> fmt::Result {
        io::write_all(1, text.as_bytes());
        Ok(())
    }
}

pub(crate) fn text(bytes: &[u8]) {
    io::write_all(1, bytes);
}

pub(crate) fn show(value: impl fmt::Display + Drop) {
    let _ = write!(Output, "{value}");
}

// Between quotes, a byte that is no plain letter or sign as a backslash and two hex digits.
#[derive(Clone, Copy)]
struct Quoted<'a>(&'a [u8]);

impl fmt::Display for Quoted<'_> {
    fn fmt<W: fmt::Write>(&self, f: &mut fmt::Formatter<W>) -> fmt::Result {
        f.write_str("\"")?;
        for byte in self.0 {
            if (32..127).contains(byte) {
                write!(f, "{}", char::from(*byte))?;
            } else {
                write!(f, "\\{byte:02x}")?;
            }
        }
        f.write_str("\"")
    }
}

// What a call gives with a 0.
#[derive(Clone, Copy)]
pub(crate) enum Answer<'a> {
    Value(&'a [u8]),
    Pair(&'a [u8], &'a [u8]),
    Versions(Versions),
    Counts(Counts),
    Used(Used),
}

impl<'a> Answer<'a> {
    pub(crate) fn value(log: &'a [u8], value: Part) -> Self {
        Answer::Value(clip(log, value.at, value.len))
    }

    pub(crate) fn pair(log: &'a [u8], pair: KeyValue) -> Self {
        let KeyValue { key, value } = pair;
        Answer::Pair(clip(log, key.at, key.len), clip(log, value.at, value.len))
    }
}

impl fmt::Display for Answer<'_> {
    fn fmt<W: fmt::Write>(&self, f: &mut fmt::Formatter<W>) -> fmt::Result {
        match self {
            Answer::Value(value) => write!(f, ": 0, value {}", Quoted(value)),
            Answer::Pair(key, value) => {
                write!(f, ": 0, key {}, value {}", Quoted(key), Quoted(value))
            }
            Answer::Versions(versions) => {
                write!(
                    f,
                    ": 0, last version {}, open {}",
                    versions.last, versions.open
                )
            }
            Answer::Counts(counts) => {
                write!(f, ": 0, keys {}, size {}", counts.keys, counts.size)?;
                write!(f, ", used {}, live {}", counts.used, counts.live)
            }
            Answer::Used(used) => write!(f, ": 0, used {}", used.len),
        }
    }
}

// A refusal, and whether everything that was lent stayed as it was.
#[derive(Clone, Copy)]
pub(crate) struct Refused {
    pub(crate) refusal: Refusal,
    pub(crate) kept: bool,
}

impl fmt::Display for Refused {
    fn fmt<W: fmt::Write>(&self, f: &mut fmt::Formatter<W>) -> fmt::Result {
        let kept = if self.kept {
            "nothing changed"
        } else {
            "CHANGED"
        };
        write!(f, ": {}, {kept}", number_of(self.refusal))
    }
}

#[derive(Clone, Copy)]
pub(crate) struct Given(pub(crate) Handle);

impl fmt::Display for Given {
    fn fmt<W: fmt::Write>(&self, f: &mut fmt::Formatter<W>) -> fmt::Result {
        let handle = &self.0;
        let way = if handle.read_only {
            "read-only"
        } else {
            "read-write"
        };
        write!(f, ", version {} {way}", handle.version)?;
        if handle.count == 0 {
            return f.write_str(", no set");
        }
        f.write_str(", set")?;
        for version in handle.set.iter().take(handle.count) {
            write!(f, " {version}")?;
        }
        Ok(())
    }
}
