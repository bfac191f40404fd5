// A transaction's handle by value: the version, and those that were open when it began. Callers may hand in any: no method trusts the
// count, and none asks for a sound handle. Part of toydb's storage/mvcc.rs.
ghost use Rattle.std.specs.Prelude.{◌≡◌, []};
ghost use Rattle.mvcc.specs.handle.Handles.{rising, set_of, sees, lowest_of, sound_handle, with_version, handle_of, blank_handle};

use keycode::limits::MAX_OPEN;

// The last of all numbers, the highest version that a key can have. No read-write handle has it.
pub(crate) const LAST_VERSION: u64 = u64::MAX;

// The versions open at its begin are the first `count` of `set`, rising. An array with a count: a handle crosses the C interface by value,
// and the store has no heap; `open` is the slice of it that is in use.
#[derive(Clone, Copy, Debug, PartialEq, Eq)]
pub struct Handle {
    pub version: u64,
    pub read_only: bool,
    pub count: usize,
    pub set: [u64; MAX_OPEN],
}

// Whether each version is above the one before.
fn rises(set: &[u64]) -> bool
    ensures { result ≡ rising set.now }
{
    set.is_sorted_by(|a, b| a < b)
}

impl Handle {
    // No set, and zeros where it would stand.
    pub fn fresh(version: u64, read_only: bool) -> Handle
        ensures { result ≡ handle_of version read_only [] }
    {
        let set = [0u64; MAX_OPEN];
        Handle {
            version,
            read_only,
            count: 0,
            set,
        }
    }

    // What comes with a refusal.
    pub fn blank() -> Handle
        ensures { result ≡ blank_handle }
    {
        Handle::fresh(0, true)
    }

    // One version more in the set; where there is no room, the handle as it was.
    pub fn with(mut self, version: u64) -> Handle
        ensures { result ≡ with_version self version }
    {
        if self.count < MAX_OPEN {
            self.set[self.count] = version;
            self.count += 1;
        }
        self
    }

    // The versions open at its begin; of a count past the array, all of it.
    pub(crate) fn open(&self) -> &[u64]
        ensures { result.now ≡ set_of self.now }
    {
        &self.set[..self.count.min(MAX_OPEN)]
    }

    // Whether it sees what a version wrote.
    pub fn sees(self, version: u64) -> bool
        ensures { result ≡ sees self version }
    {
        if self.open().contains(&version) {
            return false;
        }
        if self.read_only {
            version < self.version
        } else {
            version <= self.version
        }
    }

    // Where a write's search for conflicts starts: the first of the set, or the version after its own.
    pub fn lowest(self) -> u64
        ensures { result ≡ lowest_of self }
    {
        if 0 < self.count {
            return self.set[0];
        }
        self.version.saturating_add(1)
    }

    // Whether it is a handle at all: 13 where not.
    pub fn sound(self) -> bool
        ensures { result ≡ sound_handle self }
    {
        self.count <= MAX_OPEN && rises(self.open())
    }
}
