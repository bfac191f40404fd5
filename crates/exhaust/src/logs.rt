// Small logs, made from numbers. Each entry is one of twelve: a key "", "a" or "b", and an empty value, the value "x", or a tombstone
// whose length is written as -1 or as the lowest i32.
use keycode::parts::clip;

// What is written as a key's length, and the key.
const KEYS: [(u32, &[u8]); 3] = [(0, b""), (1, b"a"), (1, b"b")];

// The same of a value.
const VALUES: [(i32, &[u8]); 4] = [(0, b""), (1, b"x"), (-1, b""), (i32::MIN, b"")];

pub const KINDS: usize = KEYS.len() * VALUES.len();

// Three entries of a key and a value of one byte each.
const LONGEST: usize = 30;

// A log in fixed memory; what finds no room is left out. By hand: the runs take nothing from a heap, so nothing can be missing.
#[derive(Clone, Copy)]
pub struct Log {
    bytes: [u8; LONGEST],
    len: usize,
}

impl Log {
    fn put(&mut self, bytes: &[u8]) {
        let free = self.bytes.get_mut(self.len..).unwrap_or(&mut []);
        let fits = bytes.len().min(free.len());
        free[..fits].copy_from_slice(&bytes[..fits]);
        self.len = self.len.saturating_add(fits);
    }

    fn put_entry(&mut self, kind: usize) {
        let (key_len, key) = KEYS[kind / 4 % 3];
        let (value_len, value) = VALUES[kind % 4];
        self.put(&key_len.to_be_bytes());
        self.put(&value_len.to_be_bytes());
        self.put(key);
        self.put(value);
    }

    pub fn as_slice(&self) -> &[u8] {
        clip(&self.bytes, 0, self.len)
    }
}

// The log of so many entries whose kinds are the digits of code, the lowest first.
pub fn make_log(entries: usize, code: usize) -> Log {
    let mut log = Log {
        bytes: [0; LONGEST],
        len: 0,
    };
    let mut rest = code;
    for _ in 0..entries {
        log.put_entry(rest % KINDS);
        rest /= KINDS;
    }
    log
}
