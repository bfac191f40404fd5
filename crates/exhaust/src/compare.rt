// The engine's answers beside the plain reading.
use crate::plain::{KEYS, Live, Reading, read_log};
use crate::tally::{Case, Tally, more};
use bitcask::{Bound, KeyValue, Used, get, open, scan_step};
use keycode::{Part, Refusal, number_of};

// Refusals are compared by their numbers.
fn is_full(answer: Result<Used, Refusal>) -> bool {
    answer.is_err_and(|refusal| number_of(refusal) == 8)
}

fn same_answer(answer: Result<Used, Refusal>, reading: &Reading) -> bool {
    match (answer, reading.cut) {
        (Ok(used), Some(cut)) => used.len == cut,
        (Err(_), None) => is_full(answer),
        _ => false,
    }
}

// A slot's first word is 1 past the entry's offset, and 0 where the slot is free.
fn same_slot(slot: &[u32], live: Option<&Live>) -> bool {
    let Some(live) = live else {
        return slot.iter().all(|word| *word == 0);
    };
    let [place, key_len, value_len] = slot else {
        return false;
    };
    (*place as usize).checked_sub(1) == Some(live.entry)
        && *key_len as usize == live.key.len
        && *value_len as usize == live.value.len
}

// Slot i is that of the live key with i live keys below it.
fn same_table(table: &[u32], reading: &Reading) -> bool {
    table
        .chunks(3)
        .enumerate()
        .all(|(i, slot)| same_slot(slot, reading.nth(i)))
}

fn same_get(answer: Result<Part, Refusal>, live: Option<&Live>) -> bool {
    match (answer, live) {
        (Ok(value), Some(live)) => value == live.value,
        (Err(refusal), None) => number_of(refusal) == 1,
        _ => false,
    }
}

fn same_step(answer: Result<KeyValue, Refusal>, live: Option<&Live>) -> bool {
    match (answer, live) {
        (Ok(pair), Some(live)) => pair.key == live.key && pair.value == live.value,
        (Err(refusal), None) => number_of(refusal) == 1,
        _ => false,
    }
}

// An opened log, and what it is to answer.
#[derive(Clone, Copy)]
struct Opened<'a> {
    log: &'a [u8],
    used: Used,
    table: &'a [u32],
    reading: &'a Reading,
    case: Case,
}

impl Opened<'_> {
    fn run_get(&self, number: usize, key: &[u8], tally: &mut Tally) {
        let answer = get(self.log, self.used, self.table, key);
        tally.judge(same_get(answer, self.reading.of(number)), self.case);
        tally.gets = more(tally.gets);
    }

    fn run_gets(&self, tally: &mut Tally) {
        for (number, key) in KEYS.iter().enumerate() {
            self.run_get(number, *key, tally);
        }
    }

    fn step_after(&self, key: Option<&[u8]>) -> Result<KeyValue, Refusal> {
        scan_step(
            self.log,
            self.used,
            self.table,
            Bound::Unbounded,
            self.log,
            Bound::Unbounded,
            self.log,
            key.is_some(),
            key.unwrap_or(&[]),
        )
    }

    fn run_step(&self, after: Option<&[u8]>, live: Option<&Live>, tally: &mut Tally) {
        tally.judge(same_step(self.step_after(after), live), self.case);
        tally.steps = more(tally.steps);
    }

    // A step to each live key, and one past the last.
    fn run_steps(&self, tally: &mut Tally) {
        let mut after: Option<&[u8]> = None;
        for (number, key) in KEYS.iter().enumerate() {
            let live = self.reading.of(number);
            if live.is_some() {
                self.run_step(after, live, tally);
                after = Some(*key);
            }
        }
        self.run_step(after, None, tally);
    }
}

// One opening into a table as it is lent; after one that is not refused, the gets and a scan.
pub fn run_open(log: &[u8], table: &mut [u32], case: Case, tally: &mut Tally) {
    let reading = read_log(log, case.used, case.slots);
    let answer = open(log, Used { len: case.used }, table);
    tally.judge(same_answer(answer, &reading), case);
    tally.judge(same_table(table, &reading), case);
    tally.openings = more(tally.openings);
    if is_full(answer) {
        tally.full = more(tally.full);
        return;
    }
    let opened = Opened {
        log,
        used: answer.unwrap_or(Used { len: 0 }),
        table,
        reading: &reading,
        case,
    };
    opened.run_gets(tally);
    opened.run_steps(tally);
}
