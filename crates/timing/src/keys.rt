// The keys of the bench: eight letters that spell a number, with 48 letters before them that all keys share or none, and the turn in which
// keys are asked for.
use keycode::parts::clip;

const KEY_BYTES: usize = 56;

const SHARED: usize = 48;

// How many keys the store has, how many of a key's 56 bytes are left out, and whether keys are asked for that are not there.
#[derive(Clone, Copy, Debug, PartialEq, Eq)]
pub(crate) struct Keys {
    pub count: u64,
    pub skip: usize,
    pub absent: bool,
}

// A key with the bytes that are left out.
#[derive(Clone, Copy, Debug, PartialEq, Eq)]
pub(crate) struct Spelt {
    bytes: [u8; KEY_BYTES],
    skip: usize,
}

impl Spelt {
    pub(crate) fn as_slice(&self) -> &[u8] {
        clip(&self.bytes, self.skip, KEY_BYTES)
    }
}

impl Keys {
    // No key of the store ends with q.
    pub(crate) fn spell(self, n: u64) -> Spelt {
        let mut bytes = [b's'; KEY_BYTES];
        let mut rest = n;
        for letter in bytes[SHARED..].iter_mut().rev() {
            *letter = b'a' + (rest % 16) as u8;
            rest /= 16;
        }
        if self.absent {
            bytes[KEY_BYTES - 1] = b'q';
        }
        Spelt {
            bytes,
            skip: self.skip,
        }
    }

    // Every key once, in a turn that is far from their order: 7919 is a prime.
    pub(crate) fn next(self, n: u64) -> u64 {
        if self.count == 0 {
            return 0;
        }
        n.wrapping_add(7919) % self.count
    }
}
