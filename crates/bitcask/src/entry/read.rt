// What stands at an offset of the log. Every sum is kept within the used length, so that no bytes can make one wrap.
ghost use Rattle.std.specs.Prelude.{◌≡◌, ◌≤◌};
ghost use Rattle.bitcask.specs.entry.Reading.{word_at, entry_at};

use crate::entry::length::value_len;
use keycode::number::get_number;
use keycode::parts::clip;

// A whole entry with a value, or a whole tombstone.
#[derive(Clone, Copy, Debug, PartialEq, Eq)]
pub enum Lengths {
    Set { klen: usize, vlen: usize },
    Del { klen: usize },
}

// The number of the four bytes from index at on.
fn word_at(log: &[u8], at: usize) -> u32
    ensures { result ≡ word_at log.now at }
{
    get_number(clip(log, at, 4)) as u32
}

// What stands at an offset; None at the used length, and where an entry runs past it.
pub fn entry_at(log: &[u8], used: usize, at: usize) -> Option<Lengths>
    requires { at ≤ used }
    ensures { result ≡ entry_at log.now used at }
{
    let left = used - at;
    if left < 8 {
        return None;
    }
    let room = left - 8;
    let klen = word_at(log, at) as usize;
    if room < klen {
        return None;
    }
    match value_len(word_at(log, at + 4)) {
        Some(vlen) if room - klen < vlen => None,
        Some(vlen) => Some(Lengths::Set { klen, vlen }),
        None => Some(Lengths::Del { klen }),
    }
}
