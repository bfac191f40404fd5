// Entries appended to the log, and the table kept with it. These never refuse: `judged` is asked before, and is the one place of 7 and 8
// for the engine's calls and for the transactions'. On a table that was altered by hand a new key without a slot leaves the table.
ghost use Rattle.std.specs.Prelude.{◌≡◌, ◌++◌, ◌+◌, ◌*◌, ◌≤◌, length};
ghost use Rattle.keycode.specs.Limits.{max_log};
ghost use Rattle.bitcask.specs.entry.Entry.{set as set_entry, del as del_entry, size_of};
ghost use Rattle.bitcask.specs.keydir.Slots.{slot_words, slots_of};
ghost use Rattle.bitcask.specs.change.Append.{State, appended, room_after, judge, fresh_in};

use crate::entry::{put_del, put_set};
use crate::keydir::{Slot, enter, find, leave};
use keycode::Refusal;

// The end of a log's entries, and how many of its table's slots are in use.
#[derive(Clone, Copy, Debug, PartialEq, Eq)]
pub struct Mark {
    pub used: usize,
    pub count: usize,
}

// The room that an entry leaves; None where it has none, then or before. The lengths are taken off one by one, so that no sum of them can
// wrap.
pub fn room_after(room: Option<usize>, klen: usize, vlen: usize) -> Option<usize>
    ensures { result ≡ room_after room klen vlen }
{
    room?.checked_sub(8)?.checked_sub(klen)?.checked_sub(vlen)
}

// 7 where the entries have no room, then 8 where their new keys have no slots.
pub(crate) fn judged(room: Option<usize>, fresh: usize, free: usize) -> Result<(), Refusal>
    ensures { result ≡ judge room fresh free }
{
    room.ok_or(Refusal::LogFull)?;
    if free < fresh {
        return Err(Refusal::TableFull);
    }
    Ok(())
}

// How many slots a key wants: none where it has one.
pub(crate) fn fresh(log: &[u8], table: &[u32], count: usize, key: &[u8]) -> usize
    requires { slot_words * count ≤ length table.now }
    ensures { result ≡ fresh_in log.now key.now (slots_of count table.now) }
{
    usize::from(find(log, table, count, key).is_err())
}

// An entry whose value is head and then body.
pub(crate) fn append_set(
    log: &mut [u8],
    table: &mut [u32],
    mark: Mark,
    key: &[u8],
    head: &[u8],
    body: &[u8],
) -> Mark
    requires { (mark.used + 8 + length key.now + length head.now + length body.now ≤ length log.old) × (length log.old ≤ max_log) × (slot_words * mark.count ≤ length table.old) }
    ensures { record { log = log.new; used = result.used; table = table.new; count = result.count }
        ≡ appended (record { log = log.old; used = mark.used; table = table.old; count = mark.count }) (set_entry key.now (head.now ++ body.now)) }
{
    let at = mark.used;
    let count = mark.count;
    let found = find(log, table, count, key);
    let klen = key.len();
    let vlen = head.len() + body.len();
    let used = put_set(log, at, key, head, body);
    let slot = Slot::of_entry(at, klen, vlen);
    let n = enter(table, count, found, slot);
    Mark { used, count: n }
}

// A tombstone.
pub(crate) fn append_del(log: &mut [u8], table: &mut [u32], mark: Mark, key: &[u8]) -> Mark
    requires { (mark.used + 8 + length key.now ≤ length log.old) × (length log.old ≤ max_log) × (slot_words * mark.count ≤ length table.old) }
    ensures { record { log = log.new; used = result.used; table = table.new; count = result.count }
        ≡ appended (record { log = log.old; used = mark.used; table = table.old; count = mark.count }) (del_entry key.now) }
{
    let at = mark.used;
    let count = mark.count;
    let found = find(log, table, count, key);
    let used = put_del(log, at, key);
    let n = leave(table, count, found);
    Mark { used, count: n }
}
