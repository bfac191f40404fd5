// Set and delete, as toydb's BitCask (storage/bitcask.rs) has them: 13, then 7, then 8, then one entry.
ghost use Rattle.bitcask.specs.entry.Entry.{set as set_entry, del as del_entry};
ghost use Rattle.bitcask.specs.change.Promises.{Changes};

use crate::append::{Mark, append_del, append_set, fresh, judged, room_after};
use crate::keydir::count;
use crate::keydir::slots::SLOT_WORDS;
use crate::request::{Used, fits};
use keycode::Refusal;

pub fn set(
    log: &mut [u8],
    used: Used,
    table: &mut [u32],
    key: &[u8],
    value: &[u8],
) -> Result<Used, Refusal>
    ensures { Changes log.old used.len table.old (set_entry key.now value.now) result log.new table.new }
{
    let at = used.len;
    if !fits(log.len(), at, table.len()) {
        return Err(Refusal::BadRequest);
    }
    let n = count(table);
    let room = room_after(Some(log.len() - at), key.len(), value.len());
    judged(
        room,
        fresh(log, table, n, key),
        table.len() / SLOT_WORDS - n,
    )?;
    let mark = Mark { used: at, count: n };
    let mark = append_set(log, table, mark, key, value, &value[..0]);
    Ok(Used { len: mark.used })
}

pub fn delete(log: &mut [u8], used: Used, table: &mut [u32], key: &[u8]) -> Result<Used, Refusal>
    ensures { Changes log.old used.len table.old (del_entry key.now) result log.new table.new }
{
    let at = used.len;
    if !fits(log.len(), at, table.len()) {
        return Err(Refusal::BadRequest);
    }
    let n = count(table);
    let room = room_after(Some(log.len() - at), key.len(), 0);
    judged(room, 0, table.len() / SLOT_WORDS - n)?;
    let mark = append_del(log, table, Mark { used: at, count: n }, key);
    Ok(Used { len: mark.used })
}
