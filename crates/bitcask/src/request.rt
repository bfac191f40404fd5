// The used length that goes in and comes back by value, and the sizes that a request may have. A public call takes the log, the used
// length and the table one by one, and not as one value: a caller lends them for that call alone, the log now to read and now to write to,
// and the promises speak of each by itself.
ghost use Rattle.std.specs.Prelude.{◌≡◌};
ghost use Rattle.bitcask.specs.recovery.Agree.{fit};

use crate::keydir::slots::SLOT_WORDS;
use keycode::Refusal;
use keycode::limits::MAX_LOG;

// How many bytes of a log count.
#[derive(Clone, Copy, Debug, PartialEq, Eq)]
pub struct Used {
    pub len: usize,
}

// Whether a log buffer, a used length and a table are of sizes that the store takes.
pub fn fits(size: usize, used: usize, words: usize) -> bool
    ensures { result ≡ fit size used words }
{
    size <= MAX_LOG && used <= size && words % SLOT_WORDS == 0
}
