// A store by value: a case runs from a copy of the store that other cases start from too.
use keycode::Refusal;
use mvcc::Handle;
use std::mem;

const LOG_BYTES: usize = 16384;

const TABLE_WORDS: usize = 768;

const HANDS: usize = 16;

// Of the arrays the first `size` bytes, the first `words` words and the first `room` bytes of the spare buffer are lent; a compaction
// goes into the spare buffer. `refused` is what the last call answered.
#[derive(Clone, Copy)]
pub(crate) struct Store {
    pub(crate) size: usize,
    pub(crate) words: usize,
    pub(crate) room: usize,
    pub(crate) used: usize,
    pub(crate) hand: usize,
    pub(crate) refused: Option<Refusal>,
    pub(crate) log: [u8; LOG_BYTES],
    pub(crate) spare: [u8; LOG_BYTES],
    pub(crate) table: [u32; TABLE_WORDS],
    pub(crate) hands: [Handle; HANDS],
}

impl Store {
    // Bytes past the used length mean nothing, so they are not zero.
    pub(crate) fn empty() -> Store {
        Store {
            size: LOG_BYTES,
            words: TABLE_WORDS,
            room: LOG_BYTES,
            used: 0,
            hand: 0,
            refused: None,
            log: [165; LOG_BYTES],
            spare: [90; LOG_BYTES],
            table: [0; TABLE_WORDS],
            hands: [Handle::blank(); HANDS],
        }
    }

    // The handle in the hand; a blank one where there is no such hand.
    pub(crate) fn held(&self) -> Handle {
        match self.hands.get(self.hand) {
            Some(handle) => *handle,
            None => Handle::blank(),
        }
    }

    pub(crate) fn hold(&mut self, handle: Handle) {
        if let Some(held) = self.hands.get_mut(self.hand) {
            *held = handle;
        }
    }

    // After a compaction the target is the log, and the old log the next target.
    pub(crate) fn turn(&mut self) {
        mem::swap(&mut self.log, &mut self.spare);
        mem::swap(&mut self.size, &mut self.room);
    }

    // Whether log, spare buffer, table and used length are the same, the bytes and words that are not lent too.
    pub(crate) fn is_same(&self, other: &Store) -> bool {
        self.log == other.log
            && self.spare == other.spare
            && self.table == other.table
            && self.used == other.used
    }
}
