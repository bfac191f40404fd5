// Status: how many keys a store has, how many bytes they take, and how many of the log's are theirs.
ghost use Rattle.std.specs.Prelude.{◌≡◌, ◌+◌, ◌*◌, ◌≤◌, ◌<◌, length};
ghost use Rattle.bitcask.specs.keydir.Slots.{slot_words, slots_of};
ghost use Rattle.bitcask.specs.recovery.Recover.{live as live_of};
ghost use Rattle.bitcask.specs.compaction.Compaction.{capped};
ghost use Rattle.bitcask.specs.compaction.Promises.{Counting};

use crate::keydir::{Slots, count, slot_at};
use crate::request::{Used, fits};
use keycode::Refusal;

// Live keys, their key and value bytes, the used length, and the bytes that the live entries take. Garbage is the last two's difference.
#[derive(Clone, Copy, Debug, PartialEq, Eq)]
pub struct Counts {
    pub keys: usize,
    pub size: usize,
    pub used: usize,
    pub live: usize,
}

// The bytes of an entry, of the lengths of its key and its value.
fn entry_bytes(klen: u32, vlen: u32) -> usize
    ensures { (result ≡ 8 + klen + vlen) × (result < 8589934600) }
{
    8 + klen as usize + vlen as usize
}

// The bytes of the entries of some slots; None where they are more than the cap.
pub(crate) fn live_upto(slots: Slots<'_>, cap: usize) -> Option<usize>
    ensures { result ≡ capped cap (live_of (slots_of slots.entry.count slots.entry.table.now)) }
{
    let mut total = 0;
    for i in 0..slots.count {
        let s = slot_at(slots.table, i);
        let n = entry_bytes(s.klen, s.vlen);
        if cap - total < n {
            return None;
        }
        total += n;
    }
    Some(total)
}

// A table that agrees with its log names no more bytes than the log has; to one that names more nothing is promised.
pub fn status(log: &[u8], used: Used, table: &[u32]) -> Result<Counts, Refusal>
    ensures { Counting log.now used.len table.now result }
{
    let end = used.len;
    if !fits(log.len(), end, table.len()) {
        return Err(Refusal::BadRequest);
    }
    let keys = count(table);
    match live_upto(Slots { table, count: keys }, end) {
        None => Ok(Counts {
            keys: 0,
            size: 0,
            used: end,
            live: 0,
        }),
        Some(live) => Ok(Counts {
            keys,
            size: live - 8 * keys,
            used: end,
            live,
        }),
    }
}
