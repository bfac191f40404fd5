// The store that a tape is run on, with room for the answers of one record.
use bitcask::{Used, open};
use keycode::Refusal;
use keycode::parts::clip;
use tape::take;

// The log, and as many bytes beside it for compactions.
const LOG: usize = 16384;

// A table of 256 slots.
const WORDS: usize = 768;

// Sixteen handle slots.
const SLOTS: usize = 304;

// The answers of one record: a scan of as many pairs as the table has slots, and the record behind them.
const ANSWERS: usize = 32896;

// The first `used` bytes of a buffer are the log: of the second where `other` is told. By hand: crate tape's `take` is given both and this
// flag, and tells the flag again.
#[derive(Drop)]
pub(crate) struct Store {
    first: [u8; LOG],
    second: [u8; LOG],
    table: [u32; WORDS],
    slots: [u64; SLOTS],
    answers: [u8; ANSWERS],
    used: Used,
    other: bool,
}

impl Store {
    // An empty log, its table, and no transaction.
    pub(crate) fn new() -> Store {
        let first = [0; LOG];
        let mut table = [0; WORDS];
        let used = Used { len: 0 };
        let _ = open(&first, used, &mut table);
        Store {
            first,
            second: [0; LOG],
            table,
            slots: [0; SLOTS],
            answers: [0; ANSWERS],
            used,
            other: false,
        }
    }

    // What a record is answered.
    pub(crate) fn answer(&mut self, record: &[u8]) -> Result<&[u8], Refusal> {
        let turn = take(
            &mut self.first,
            &mut self.second,
            &mut self.table,
            &mut self.slots,
            self.used,
            self.other,
            record,
            &mut self.answers,
        )?;
        self.used = turn.used;
        self.other = turn.other;
        Ok(clip(&self.answers, 0, turn.len))
    }
}
