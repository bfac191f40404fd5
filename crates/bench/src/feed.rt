// The records of a tape as they come, in chunks of any size, each answered before the next is read, so that whoever waits for an answer
// has it. What is left at the end is a short record, and ends the run.
ghost use Rattle.std.specs.Prelude.{◌≡◌, ◌<◌, ◌≤◌, length, take, IfOk};
ghost use Rattle.std.specs.Io.KnownBytes.{Consumes, IsAtEnd};

use crate::store::Store;
use std::io::Read;
use std::{fmt, io};
use tape::format::layout::RECORD;

// Why a run did not answer its whole tape.
#[derive(Clone, Copy, Debug, PartialEq, Eq)]
pub(crate) enum Fault {
    Unread,
    Refused,
    Unwritten,
}

impl fmt::Display for Fault {
    fn fmt<W: fmt::Write>(&self, f: &mut fmt::Formatter<W>) -> fmt::Result {
        match self {
            Fault::Unread => write!(f, "the tape could not be read"),
            Fault::Refused => write!(f, "a record was refused"),
            Fault::Unwritten => write!(f, "an answer was not written"),
        }
    }
}

// How many bytes of the next record there are: as many as it has, but at the end of the tape.
fn fill<T: Read>(tape: &mut T, bytes: &mut [u8]) -> io::Result<usize>
    ensures len { length bytes.new ≡ length bytes.old }
    ensures bound { IfOk result (λ n. n ≤ length bytes.new) }
    ensures consumes { IfOk result (λ n. Consumes (T.remaining tape.old) (T.remaining tape.new) (take n bytes.new)) }
    ensures end { IfOk result (λ n. n < length bytes.new → IsAtEnd (T.remaining tape.new)) }
{
    // By hand: of a tape that ends in mid-record `read_exact` does not say how far it came, and `read_to_end` wants a heap.
    let mut n = 0;
    while n < bytes.len() {
        let more = tape.read(&mut bytes[n..])?;
        if more == 0 {
            break;
        }
        n += more;
    }
    Ok(n)
}

// Whether the tape has ended: one that goes on behind its end, as a terminal may, was not read to its end.
fn over<T: Read>(tape: &mut T) -> bool {
    let mut one = [0u8; 1];
    matches!(tape.read(&mut one), Ok(0))
}

// The next record; a short one, or none, at the tape's end alone.
fn next_record<'a, T: Read>(tape: &mut T, bytes: &'a mut [u8]) -> Result<&'a [u8], Fault> {
    let n = fill(tape, bytes).map_err(|_| Fault::Unread)?;
    if n < bytes.len() && !over(tape) {
        return Err(Fault::Unread);
    }
    Ok(&bytes[..n])
}

// A proved loop has to end, and nothing says that a tape does: it has as many turns as no run uses up.
pub(crate) fn run<T: Read, P: Print>(tape: &mut T, rt: &P, store: &mut Store) -> Result<(), Fault> {
    let mut bytes = [0; RECORD];
    for _ in 0..u64::MAX {
        let record = next_record(tape, &mut bytes)?;
        if !record.is_empty() {
            let answers = store.answer(record).map_err(|_| Fault::Refused)?;
            rt.write_all(answers).map_err(|_| Fault::Unwritten)?;
        }
        if record.len() < RECORD {
            break;
        }
    }
    Ok(())
}
