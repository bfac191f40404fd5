// An entry into a table beside which changes wait: what moves no other slot is done in the table, what would waits, and all that waits
// is brought into the table in one pass.
ghost use Rattle.std.specs.Prelude.{true, false, ◌≡◌, ◌+◌, ◌-◌, ◌*◌, ◌≤◌, ◌<◌, length, ltb, Err};
ghost use Rattle.keycode.specs.Tests.{pick};
ghost use Rattle.bitcask.specs.keydir.Slots.{slot_words, slots_of, key_of};
ghost use Rattle.bitcask.specs.keydir.Place.{place_of, Among};
ghost use Rattle.bitcask.specs.merging.Merge.{is_gone};
ghost use Rattle.bitcask.specs.recovery.Waiting.{max_waiting, waits_gone, Enters, Leaves, Settles};

use crate::keydir::{SLOT_WORDS, Slot, enter, find, key_of, leave, slot_at};
use crate::merging::flush;
use crate::merging::put::is_gone;
use keycode::Refusal;

// How many changes wait at most.
pub(crate) const MAX_WAITING: usize = 256;

// The slots in use in the table, how many changes wait, and how many keys table and changes have together.
#[derive(Clone, Copy, Debug, PartialEq, Eq)]
pub struct Held {
    pub count: usize,
    pub waiting: usize,
    pub live: usize,
}

// Where the entry behind one that was taken begins, and what is held then.
#[derive(Clone, Copy, Debug, PartialEq, Eq)]
pub struct Next {
    pub at: usize,
    pub held: Held,
}

// Whether what waits at a place that was found takes its key out.
fn waits_gone(pend: &[u32], waiting: usize, held: Result<usize, usize>) -> bool
    requires { (Among waiting held) × (slot_words * waiting ≤ length pend.now) }
    ensures { result ≡ waits_gone (slots_of waiting pend.now) held }
{
    match held {
        Ok(i) => is_gone(slot_at(pend, i)),
        Err(_) => false,
    }
}

// Whether a new slot at a place goes behind the last, and the table has room there.
fn goes_last(place: usize, count: usize, slots: usize) -> bool
    ensures { result ≡ pick (ltb place count) false (ltb count slots) }
{
    count <= place && count < slots
}

// An entry with a value whose key does not wait: i is where it would. 8 where its key is new and no slot is free.
fn take_new(
    log: &[u8],
    table: &mut [u32],
    pend: &mut [u32],
    h: Held,
    i: usize,
    s: Slot,
    end: usize,
) -> Result<Next, Refusal>
    requires { (slot_words * h.count ≤ length table.old) × (slot_words * h.waiting + slot_words ≤ length pend.old) × (is_gone s ≡ false)
        × (Err i ≡ place_of log.now (key_of log.now s) (slots_of h.waiting pend.old)) }
    ensures { Enters log.now table.old pend.old h (record { slot = s; gone = false }) end result table.new pend.new }
{
    let found = find(log, table, h.count, key_of(log, s));
    let slots = table.len() / SLOT_WORDS;
    let held = match found {
        Ok(_) => {
            let count = enter(table, h.count, found, s);
            Held { count, ..h }
        }
        Err(j) => {
            if slots <= h.live {
                return Err(Refusal::TableFull);
            }
            let live = h.live + 1;
            if goes_last(j, h.count, slots) {
                let count = enter(table, h.count, found, s);
                Held { count, live, ..h }
            } else {
                let waiting = enter(pend, h.waiting, Err(i), s);
                Held { waiting, live, ..h }
            }
        }
    };
    Ok(Next { at: end, held })
}

// An entry with a value, that ends at an offset. 8 where its key is new and no slot is free.
pub(crate) fn take_set(
    log: &[u8],
    table: &mut [u32],
    pend: &mut [u32],
    h: Held,
    s: Slot,
    end: usize,
) -> Result<Next, Refusal>
    requires { (slot_words * h.count ≤ length table.old) × (slot_words * h.waiting + slot_words ≤ length pend.old) × (is_gone s ≡ false) }
    ensures { Enters log.now table.old pend.old h (record { slot = s; gone = false }) end result table.new pend.new }
{
    let held = find(log, pend, h.waiting, key_of(log, s));
    match held {
        Ok(_) => {
            let mut live = h.live;
            if waits_gone(pend, h.waiting, held) {
                if table.len() / SLOT_WORDS <= h.live {
                    return Err(Refusal::TableFull);
                }
                live += 1;
            }
            let waiting = enter(pend, h.waiting, held, s);
            let held = Held { waiting, live, ..h };
            Ok(Next { at: end, held })
        }
        Err(i) => take_new(log, table, pend, h, i, s, end),
    }
}

// A tombstone, its slot marked.
pub(crate) fn take_del(log: &[u8], table: &[u32], pend: &mut [u32], h: Held, s: Slot) -> Held
    requires { (slot_words * h.count ≤ length table.now) × (slot_words * h.waiting + slot_words ≤ length pend.old) × (is_gone s ≡ true) }
    ensures { Leaves log.now table.now pend.old h s result pend.new }
{
    let held = find(log, pend, h.waiting, key_of(log, s));
    if waits_gone(pend, h.waiting, held) {
        return h;
    }
    match find(log, table, h.count, key_of(log, s)) {
        Ok(_) => {
            let waiting = enter(pend, h.waiting, held, s);
            let live = h.live.saturating_sub(1);
            Held { waiting, live, ..h }
        }
        Err(_) => {
            let waiting = leave(pend, h.waiting, held);
            let live = h.live.saturating_sub(h.waiting.saturating_sub(waiting));
            Held { waiting, live, ..h }
        }
    }
}

// All that waits brought into the table.
pub(crate) fn settle(log: &[u8], table: &mut [u32], pend: &[u32], h: Held) -> Held
    requires { (slot_words * h.count ≤ length table.old) × (slot_words * h.waiting ≤ length pend.now) }
    ensures { (result.waiting ≡ 0) × (Settles log.now table.old pend.now h result table.new) }
{
    let count = flush(log, table, h.count, pend, h.waiting);
    Held {
        count,
        waiting: 0,
        ..h
    }
}

// The same where no more may wait.
pub(crate) fn make_room(log: &[u8], table: &mut [u32], pend: &[u32], h: Held) -> Held
    requires { (slot_words * h.count ≤ length table.old) × (h.waiting ≤ max_waiting) × (slot_words * max_waiting ≤ length pend.now) }
    ensures { (result.waiting < max_waiting) × (Settles log.now table.old pend.now h result table.new) }
{
    if h.waiting < MAX_WAITING {
        return h;
    }
    settle(log, table, pend, h)
}
