// The slots of the keys that wait taken out of a table: the first `to` slots stand where they stay, those from `from` on are still to be
// looked at, what lies between is the gap.
ghost use Rattle.std.specs.Prelude.{◌≡◌, ◌+◌, ◌-◌, ◌*◌, ◌≤◌, length};
ghost use Rattle.bitcask.specs.keydir.Slots.{slot_words, slots_of};
ghost use Rattle.bitcask.specs.keydir.Words.{copied};
ghost use Rattle.bitcask.specs.merging.Passes.{TakesOne, TakesAll};

use crate::keydir::{SLOT_WORDS, find, key_of, slot_at};

// The gap: from slot `to` up to slot `from`.
#[derive(Clone, Copy, Debug, PartialEq, Eq)]
pub struct Gap {
    pub to: usize,
    pub from: usize,
}

// The slots behind the gap, up to slot `end`, moved down over it. Where there is no gap they stand where they go, and stay untouched.
fn close(table: &mut [u32], gap: Gap, end: usize)
    requires { (gap.to ≤ gap.from) × (gap.from ≤ end) × (slot_words * end ≤ length table.old) }
    ensures { table.new ≡ copied table.old (slot_words * gap.from) (slot_words * end) (slot_words * gap.to) }
{
    if gap.to < gap.from {
        table.copy_within(SLOT_WORDS * gap.from..SLOT_WORDS * end, SLOT_WORDS * gap.to);
    }
}

// The slot of one key, behind the gap.
fn take_one(log: &[u8], table: &mut [u32], count: usize, gap: Gap, key: &[u8]) -> Gap
    requires { (gap.to ≤ gap.from) × (gap.from ≤ count) × (slot_words * count ≤ length table.old) }
    ensures { TakesOne log.now table.old count gap.to gap.from key.now result.to result.from table.new }
{
    let start = SLOT_WORDS * gap.from;
    match find(log, &table[start..], count - gap.from, key) {
        Ok(j) => {
            close(table, gap, gap.from + j);
            Gap {
                to: gap.to + j,
                from: gap.from + j + 1,
            }
        }
        Err(_) => gap,
    }
}

// The slots of all keys that wait; gives how many are left. The words that this frees are 0.
pub(crate) fn take_all(
    log: &[u8],
    table: &mut [u32],
    count: usize,
    pend: &[u32],
    waiting: usize,
) -> usize
    requires { (slot_words * count ≤ length table.old) × (slot_words * waiting ≤ length pend.now) }
    ensures { TakesAll log.now table.old count (slots_of waiting pend.now) result table.new }
{
    let mut gap = Gap { to: 0, from: 0 };
    for p in 0..waiting {
        gap = take_one(log, table, count, gap, key_of(log, slot_at(pend, p)));
    }
    close(table, gap, count);
    let left = gap.to + (count - gap.from);
    table[SLOT_WORDS * left..SLOT_WORDS * count].fill(0);
    left
}
