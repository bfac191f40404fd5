// The yes/no on agreement, for any bytes and words: one walk of the log, and no second table. Only a value whose key has no slot looks
// ahead, to the next entry of its key: near linear on most logs, quadratic at worst.
ghost use Rattle.std.specs.Prelude.{◌≡◌, ◌+◌, ◌*◌, ◌≤◌, ◌<◌, length, get_or};
ghost use Rattle.keycode.specs.Limits.{max_log};
ghost use Rattle.keycode.specs.Order.{compare_bytes};
ghost use Rattle.bitcask.specs.entry.Reading.{entry_at};
ghost use Rattle.bitcask.specs.keydir.Slots.{slot_words, slots_of, free_slot, key_of};
ghost use Rattle.bitcask.specs.recovery.Recover.{item_of, items};
ghost use Rattle.bitcask.specs.check.Told.{zeroed, is_less, is_equal, risen, ahead_of, item_seen, later_in, against as against_of, judged_in, walked_in};
ghost use Rattle.bitcask.specs.check.Promises.{Tells};

use crate::entry::{Lengths, entry_at};
use crate::keydir::{SLOT_WORDS, Slot, Slots, count, find, key_of, slot_at};
use crate::request::{Used, fits};
use keycode::compare;

// An entry of the log as a slot, and whether it is a tombstone.
#[derive(Clone, Copy, Debug, PartialEq, Eq)]
pub struct Seen {
    pub slot: Slot,
    pub gone: bool,
}

// An entry that no agreeing table allows, one that lies before its slot's or needs none, or a slot's own.
#[derive(Clone, Copy, Debug, PartialEq, Eq)]
pub enum Judged {
    Wrong,
    Early,
    Exact,
}

// Whether every word is 0.
fn zeros(words: &[u32]) -> bool
    ensures { result ≡ zeroed words.now }
{
    words.iter().all(|&word| word == 0)
}

// Whether a slot's key is below the next one's.
fn in_order(log: &[u8], slots: Slots<'_>, i: usize) -> bool
    requires { i + 1 < slots.count }
    ensures { result ≡ is_less (compare_bytes (key_of log.now (get_or (slots_of slots.entry.count slots.entry.table.now) i free_slot)) (key_of log.now (get_or (slots_of slots.entry.count slots.entry.table.now) (i + 1) free_slot))) }
{
    let key = key_of(log, slot_at(slots.table, i));
    compare(key, key_of(log, slot_at(slots.table, i + 1))).is_lt()
}

// Whether the keys of the first `count` slots strictly rise.
fn rising(log: &[u8], slots: Slots<'_>) -> bool
    ensures { result ≡ risen log.now (slots_of slots.entry.count slots.entry.table.now) }
{
    // By hand: the closure of an `all` has to be callable for every index, and these are those below `count` alone.
    for i in 1..slots.count {
        if !in_order(log, slots, i - 1) {
            return false;
        }
    }
    true
}

// The entry at an offset; None where no whole one stands there.
fn entry_from(log: &[u8], used: usize, at: usize) -> Option<Seen>
    requires { (at ≤ used) × (used ≤ max_log) }
    ensures { result ≡ ahead_of (item_of (entry_at log.now used at) at) }
{
    match entry_at(log, used, at)? {
        Lengths::Set { klen, vlen } => Some(Seen {
            slot: Slot::of_entry(at, klen, vlen),
            gone: false,
        }),
        Lengths::Del { klen } => Some(Seen {
            slot: Slot::of_entry(at, klen, 0),
            gone: true,
        }),
    }
}

// The offset past a slot's entry.
fn past(s: Slot) -> usize
    ensures { result ≡ s.place + 7 + s.klen + s.vlen }
{
    s.value_at() + s.vlen as usize
}

// Whether a slot's key is the one given.
fn same_key(log: &[u8], s: Slot, key: &[u8]) -> bool
    ensures { result ≡ is_equal (compare_bytes (key_of log.now s) key.now) }
{
    compare(key_of(log, s), key).is_eq()
}

// Whether an entry from an offset on has the key.
fn later(log: &[u8], used: usize, from: usize, key: &[u8]) -> bool
    requires { (from ≤ used) × (used ≤ max_log) }
    ensures { result ≡ later_in log.now key.now (items log.now used from) }
{
    let mut at = from;
    while let Some(e) = entry_from(log, used, at) {
        if same_key(log, e.slot, key) {
            return true;
        }
        at = past(e.slot);
    }
    false
}

// An entry against the slot that its key has.
fn against(s: Slot, x: Slot, gone: bool) -> Judged
    ensures { result ≡ against_of s x gone }
{
    if x.place < s.place {
        return Judged::Early;
    }
    if !gone && s == x {
        Judged::Exact
    } else {
        Judged::Wrong
    }
}

// An entry against the slot of its key, or, where there is none, against the entries behind it.
fn judge(log: &[u8], used: usize, slots: Slots<'_>, e: Seen) -> Judged
    requires { (e.slot.place + 7 + e.slot.klen + e.slot.vlen ≤ used) × (used ≤ max_log) }
    ensures { result ≡ judged_in log.now (slots_of slots.entry.count slots.entry.table.now) (item_seen e) (items log.now used (e.slot.place + 7 + e.slot.klen + e.slot.vlen)) }
{
    let key = key_of(log, e.slot);
    match find(log, slots.table, slots.count, key) {
        Ok(j) => against(slot_at(slots.table, j), e.slot, e.gone),
        Err(_) => {
            if e.gone || later(log, used, past(e.slot), key) {
                Judged::Early
            } else {
                Judged::Wrong
            }
        }
    }
}

// How many of the entries, one after the other up to the used length, are a slot's; None where one is wrong or they end before.
fn walk(log: &[u8], used: usize, slots: Slots<'_>) -> Option<usize>
    requires { used ≤ max_log }
    ensures { result ≡ walked_in log.now used (slots_of slots.entry.count slots.entry.table.now) 0 (items log.now used 0) }
{
    let mut at = 0;
    let mut met = 0;
    while let Some(e) = entry_from(log, used, at) {
        match judge(log, used, slots, e) {
            Judged::Wrong => {
                return None;
            }
            Judged::Early => {}
            Judged::Exact => {
                met += 1;
            }
        }
        at = past(e.slot);
    }
    if at == used { Some(met) } else { None }
}

// Whether the table is recovery's for the log, and recovery cuts nothing.
pub fn agrees(log: &[u8], used: Used, table: &[u32]) -> bool
    ensures { Tells log.now used.len table.now result }
{
    let len = used.len;
    if !fits(log.len(), len, table.len()) {
        return false;
    }
    let n = count(table);
    let slots = Slots { table, count: n };
    zeros(&table[SLOT_WORDS * n..]) && rising(log, slots) && walk(log, len, slots) == Some(n)
}
