// The store on which calls are timed: a log of which so many bytes are used, and its table.
use crate::keys::Keys;
use bitcask::{Used, compact};
use keycode::parts::clip;
use keycode::{Part, Refusal};
use mvcc::{Bound, Handle, KeyValue};

#[derive(Drop)]
pub(crate) struct Store<'a> {
    pub log: &'a mut [u8],
    pub table: &'a mut [u32],
    pub used: Used,
}

// A value adds its length and its first byte.
fn weight(value: &[u8]) -> u64 {
    match value {
        [first, ..] => (value.len() as u64).wrapping_add(u64::from(*first)),
        [] => 0,
    }
}

// The used length that an answer tells, 0 where it is a refusal.
fn told(answer: Result<Used, Refusal>) -> u64 {
    answer.map_or(0, |used| used.len as u64)
}

impl Store<'_> {
    // A call that was refused leaves the used length that was before it.
    fn keep(&mut self, answer: Result<Used, Refusal>) {
        self.used = answer.unwrap_or(self.used);
    }

    pub(crate) fn open(&mut self) -> u64 {
        let log = &mut *self.log;
        let table = &mut *self.table;
        told(bitcask::open(log, self.used, table))
    }

    pub(crate) fn get(&self, handle: Handle, keys: Keys, n: u64) -> u64 {
        let key = keys.spell(n);
        mvcc::get(self.log, self.used, self.table, handle, key.as_slice()).map_or(
            0,
            |value| self.weight_of(value),
        )
    }

    fn weight_of(&self, value: Part) -> u64 {
        weight(clip(self.log, value.at, value.len))
    }

    // The pair behind the last key, the first where there is none.
    fn step(&self, handle: Handle, last: Option<Part>) -> Result<KeyValue, Refusal> {
        let key = last.unwrap_or(Part { at: 0, len: 0 });
        mvcc::scan_step(
            self.log,
            self.used,
            self.table,
            handle,
            Bound::Unbounded,
            self.log,
            Bound::Unbounded,
            self.log,
            last.is_some(),
            clip(self.log, key.at, key.len),
        )
    }

    // No key of the bench holds a byte that is escaped, so the key of a pair is the last key of the next step as it stands. A pair takes a
    // byte of the log at least.
    pub(crate) fn scan(&self, handle: Handle) -> u64 {
        let mut sum: u64 = 0;
        let mut last = None;
        for _ in 0..self.log.len() {
            let Ok(pair) = self.step(handle, last) else {
                break;
            };
            sum = sum.wrapping_add(self.weight_of(pair.value));
            last = Some(pair.key);
        }
        sum
    }

    fn begin(&mut self) -> Handle {
        let begun = mvcc::begin(self.log, self.used, self.table);
        self.keep(begun.answer);
        begun.handle
    }

    // The transaction by which calls are made: one that begins after others that stay open.
    pub(crate) fn begin_after(&mut self, others: u64) -> Handle {
        for _ in 0..others {
            self.begin();
        }
        self.begin()
    }

    pub(crate) fn set(&mut self, handle: Handle, keys: Keys, n: u64) {
        let key = keys.spell(n);
        let answer = mvcc::set(
            self.log,
            self.used,
            self.table,
            handle,
            key.as_slice(),
            b"another value",
        );
        self.keep(answer);
    }

    pub(crate) fn commit(&mut self, handle: Handle) -> u64 {
        told(mvcc::commit(self.log, self.used, self.table, handle))
    }

    // There and back: two compactions.
    pub(crate) fn compact_twice(&mut self, target: &mut [u8]) -> u64 {
        let log = &mut *self.log;
        let table = &mut *self.table;
        self.used = compact(log, self.used, table, target).unwrap_or(self.used);
        self.used = compact(target, self.used, table, log).unwrap_or(self.used);
        self.used.len as u64
    }
}
