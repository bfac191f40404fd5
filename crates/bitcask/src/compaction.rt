// Compaction: the live entries in key order into a second buffer, the target, and the table's slots renamed to their places there.
// The old log stays. Part of toydb's storage/bitcask.rs.
ghost use Rattle.std.specs.Prelude.{◌+◌, ◌*◌, ◌≤◌, length};
ghost use Rattle.keycode.specs.Limits.{max_log};
ghost use Rattle.bitcask.specs.entry.Entry.{size_of};
ghost use Rattle.bitcask.specs.keydir.Slots.{slot_words, slot_at, slots_of};
ghost use Rattle.bitcask.specs.recovery.Recover.{view};
ghost use Rattle.bitcask.specs.change.Append.{size_all};
ghost use Rattle.bitcask.specs.compaction.Compaction.{entries_of, entry_in, MovedOne, Moved};
ghost use Rattle.bitcask.specs.compaction.Promises.{Compacts};

use crate::entry::put_set;
use crate::keydir::slots::store;
use crate::keydir::{SLOT_WORDS, Slot, Slots, count, key_of, slot_at, value_of};
use crate::report::live_upto;
use crate::request::{Used, fits};
use keycode::Refusal;
use keycode::limits::MAX_LOG;

// The entry of the i-th slot into the target from index `to` on, and the slot renamed to it; gives the index after it.
fn move_slot(log: &[u8], table: &mut [u32], i: usize, target: &mut [u8], to: usize) -> usize
    requires { (slot_words * i + slot_words ≤ length table.old) × (to + size_of (entry_in log.now (slot_at table.old i)) ≤ length target.old) × (length target.old ≤ max_log) }
    ensures { MovedOne table.old target.old i to (entry_in log.now (slot_at table.old i)) table.new target.new result }
{
    let s = slot_at(table, i);
    let key = key_of(log, s);
    let value = value_of(log, s);
    let klen = key.len();
    let vlen = value.len();
    let end = put_set(target, to, key, value, &value[..0]);
    store(table, SLOT_WORDS * i, Slot::of_entry(to, klen, vlen));
    end
}

// The entries of the first `count` slots into the target from its front on, and the slots renamed; gives the index after them.
fn move_all(log: &[u8], table: &mut [u32], count: usize, target: &mut [u8]) -> usize
    requires { (slot_words * count ≤ length table.old) × (size_all (entries_of (view log.now (slots_of count table.old))) ≤ length target.old) × (length target.old ≤ max_log) }
    ensures { Moved table.old target.old (entries_of (view log.now (slots_of count table.old))) table.new target.new result }
{
    let mut to = 0;
    for i in 0..count {
        to = move_slot(log, table, i, target, to);
    }
    to
}

// 13 where a size is wrong, 7 where the live entries exceed the target; else the target's used length.
pub fn compact(
    log: &[u8],
    used: Used,
    table: &mut [u32],
    target: &mut [u8],
) -> Result<Used, Refusal>
    ensures { Compacts log.now used.len table.old target.old result table.new target.new }
{
    let end = used.len;
    if !fits(log.len(), end, table.len()) {
        return Err(Refusal::BadRequest);
    }
    let room = target.len();
    if MAX_LOG < room {
        return Err(Refusal::BadRequest);
    }
    let n = count(table);
    live_upto(Slots { table, count: n }, room).ok_or(Refusal::LogFull)?;
    let len = move_all(log, table, n, target);
    Ok(Used { len })
}
