// What goes from one record to the next by value.
ghost use Rattle.std.specs.Prelude.{◌≡◌, false};
ghost use Rattle.tape.specs.format.Layout.{record_len};

use crate::format::layout::RECORD;
use bitcask::Used;

// The used length, whether the second of the two lent buffers is the log, and how many bytes of answers were laid.
#[derive(Clone, Copy, Debug, PartialEq, Eq)]
pub struct Turn {
    pub used: Used,
    pub other: bool,
    pub len: usize,
}

// One record of answers, and the log where it was.
pub(crate) fn one_answer(used: Used) -> Turn
    ensures { result ≡ record { used = used; other = false; len = record_len } }
{
    Turn {
        used,
        other: false,
        len: RECORD,
    }
}
