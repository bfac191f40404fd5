// Decoding a key. `decode_why` finds the key, or the first fault with the byte that decides; the public `decode` forgets the fault and
// answers 12.
ghost use Rattle.std.specs.Prelude.{◌≡◌, length};
ghost use Rattle.keycode.specs.Limits.{max_key};
ghost use Rattle.keycode.specs.key.Keys.{exactly as exactly_of, string_at, decode_why, forget};

use crate::key::Key;
use crate::number::get_number;
use crate::parts::{Part, clip};
use crate::refusal::Refusal;
use crate::strings::{Fault, Reason, scan};

// The key, if its `len` bytes are the n that it should have.
fn exactly(n: usize, len: usize, key: Key) -> Result<Key, Fault>
    ensures { result ≡ exactly_of n len key }
{
    if len < n {
        return Err(Fault {
            reason: Reason::TooFew,
            at: len,
        });
    }
    if n < len {
        Err(Fault {
            reason: Reason::LeftOver,
            at: n,
        })
    } else {
        Ok(key)
    }
}

// A string that starts at index at; too few bytes where the key ends before that.
fn string_at(key: &[u8], at: usize) -> Result<usize, Fault>
    ensures { result ≡ string_at max_key at key.now }
{
    if key.len() < at {
        Err(Fault {
            reason: Reason::TooFew,
            at: key.len(),
        })
    } else {
        scan(key, at)
    }
}

fn decode_why(key: &[u8]) -> Result<Key, Fault>
    ensures { result ≡ decode_why max_key key.now }
{
    let n = key.len();
    if n == 0 {
        return Err(Fault {
            reason: Reason::TooFew,
            at: 0,
        });
    }
    let tag = key[0];
    let first = get_number(clip(key, 1, 8));
    match tag {
        0 => exactly(1, n, Key::NextVersion),
        1 => exactly(9, n, Key::TxnActive(first)),
        2 => exactly(9, n, Key::TxnActiveSnapshot(first)),
        3 => {
            let i = string_at(key, 9)?;
            exactly(i + 2, n, Key::TxnWrite(first, Part { at: 9, len: i - 9 }))
        }
        4 => {
            let i = string_at(key, 1)?;
            let version = get_number(clip(key, i + 2, 8));
            exactly(i + 10, n, Key::Version(Part { at: 1, len: i - 1 }, version))
        }
        5 => {
            let i = string_at(key, 1)?;
            exactly(i + 2, n, Key::Unversioned(Part { at: 1, len: i - 1 }))
        }
        _ => Err(Fault {
            reason: Reason::UnknownTag,
            at: 0,
        }),
    }
}

// The key that bytes are.
pub fn decode(key: &[u8]) -> Result<Key, Refusal>
    ensures { result ≡ forget (decode_why max_key key.now) }
{
    decode_why(key).map_err(|_| Refusal::BadStore)
}
