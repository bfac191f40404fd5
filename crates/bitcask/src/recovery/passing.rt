// At most so many entries of a log passed, into a table beside which changes wait. What waits is brought in at the end, so that the
// table then is what opening the entries passed alone would give. An opening in turns needs nothing but an allowance and a mark.
ghost use Rattle.std.specs.Prelude.{◌≡◌, ◌+◌, ◌*◌, ◌≤◌, length};
ghost use Rattle.keycode.specs.Limits.{max_log};
ghost use Rattle.bitcask.specs.keydir.Slots.{slot_words};
ghost use Rattle.bitcask.specs.merging.Merge.{gone_mark};
ghost use Rattle.bitcask.specs.recovery.Waiting.{max_waiting};
ghost use Rattle.bitcask.specs.recovery.Passing.{TakesEntry, GoesOver, Passes};

use crate::entry::{GONE, Lengths, entry_at};
use crate::keydir::{SLOT_WORDS, Slot};
use crate::recovery::waiting::{Held, MAX_WAITING, Next, make_room, settle, take_del, take_set};
use keycode::Refusal;

// Where the entry behind those passed begins, how many slots are in use, and how many entries more might have been passed.
#[derive(Clone, Copy, Debug, PartialEq, Eq)]
pub struct Passed {
    pub at: usize,
    pub count: usize,
    pub left: usize,
}

// The slot of a tombstone at an offset, marked.
fn gone_for(at: usize, klen: usize) -> Slot
    requires { at + 8 + klen ≤ max_log }
    ensures { result ≡ record { place = at + 1; klen = klen; vlen = gone_mark } }
{
    Slot {
        vlen: GONE,
        ..Slot::of_entry(at, klen, 0)
    }
}

// The entry at an offset; None where no whole one stands there, 8 where its new key finds no free slot.
fn take_entry(
    log: &[u8],
    used: usize,
    table: &mut [u32],
    pend: &mut [u32],
    h: Held,
    at: usize,
) -> Result<Option<Next>, Refusal>
    requires { (at ≤ used) × (used ≤ max_log) × (slot_words * h.count ≤ length table.old) × (slot_words * h.waiting + slot_words ≤ length pend.old) }
    ensures { TakesEntry log.now used table.old pend.old h at result table.new pend.new }
{
    match entry_at(log, used, at) {
        Some(Lengths::Set { klen, vlen }) => {
            let s = Slot::of_entry(at, klen, vlen);
            let next = take_set(log, table, pend, h, s, at + 8 + klen + vlen)?;
            Ok(Some(next))
        }
        Some(Lengths::Del { klen }) => {
            let s = gone_for(at, klen);
            let held = take_del(log, table, pend, h, s);
            Ok(Some(Next {
                at: at + 8 + klen,
                held,
            }))
        }
        None => Ok(None),
    }
}

// At most so many entries from an offset on, into a table of `count` slots, with room for what waits. Where one is refused, the table
// is left as it stands then.
fn pass_with(
    log: &[u8],
    used: usize,
    table: &mut [u32],
    pend: &mut [u32],
    count: usize,
    start: usize,
    most: usize,
) -> Result<Passed, Refusal>
    requires { (start ≤ used) × (used ≤ max_log) × (slot_words * count ≤ length table.old) × (slot_words * max_waiting ≤ length pend.old) }
    ensures { GoesOver log.now used table.old count start most result table.new }
{
    let mut at = start;
    let mut left = most;
    let mut h = Held {
        count,
        waiting: 0,
        live: count,
    };
    // By hand: how many are left is part of the answer.
    while 0 < left {
        h = make_room(log, table, pend, h);
        let Some(next) = take_entry(log, used, table, pend, h, at)? else {
            break;
        };
        at = next.at;
        h = next.held;
        left -= 1;
    }
    h = settle(log, table, pend, h);
    Ok(Passed {
        at,
        count: h.count,
        left,
    })
}

// The same, with room of its own for what waits: 3 KiB of stack. Where an entry's new key finds no free slot, it refuses with 8 and
// the table is clear.
pub(crate) fn pass(
    log: &[u8],
    used: usize,
    table: &mut [u32],
    count: usize,
    start: usize,
    most: usize,
) -> Result<Passed, Refusal>
    requires { (start ≤ used) × (used ≤ max_log) × (slot_words * count ≤ length table.old) }
    ensures { Passes log.now used table.old count start most result table.new }
{
    let mut pend = [0u32; SLOT_WORDS * MAX_WAITING];
    let passed = pass_with(log, used, table, &mut pend, count, start, most);
    if passed.is_err() {
        table.fill(0);
    }
    passed
}
