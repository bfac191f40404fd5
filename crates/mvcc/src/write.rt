// Set and delete of a transaction: 13, 2, 3, 4, 5, 12, 6, 7, 8, then TxnWrite and Version. The store is entered once and its mark goes
// along; four searches in all: the handle's key, the end of the key's versions, and each of the two keys.
ghost use Rattle.std.specs.Prelude.{◌≡◌, ◌++◌, ◌≤◌, leb, length, None, Some};
ghost use Rattle.keycode.specs.Limits.{max_key, max_value};
ghost use Rattle.bitcask.specs.engine.Views.{marked, Viewed};
ghost use Rattle.bitcask.specs.engine.Stores.{SameLent, Counted};
ghost use Rattle.mvcc.specs.payload.Payloads.{value_bytes};
ghost use Rattle.mvcc.specs.write.Writes.{plan};
ghost use Rattle.mvcc.specs.write.Promises.{Writes};
ghost use Rattle.mvcc.specs.admission.Admits.{Allows};
ghost use Rattle.mvcc.specs.append.Appends.{AppendsTo};

use crate::admission::admit;
use crate::append::pair::append_pair;
use crate::append::size::sized;
use crate::conflict::search;
use crate::handle::Handle;
use crate::payload::{GONE_TAG, VALUE_TAG};
use bitcask::Used;
use bitcask::engine::{Store, View};
use keycode::Refusal;
use keycode::code::{version_code, write_code};

// 13, 2, 3, 4, 5. A read-only handle is never refused with 3, so that 2 may be asked after it.
fn allowed<'a, 't>(
    log: &'a [u8],
    used: Used,
    table: &'t [u32],
    handle: Handle,
    klen: usize,
    vlen: usize,
) -> Result<View<'a, 't>, Refusal>
    ensures mark { Allows log.now used table.now handle klen vlen (marked result) }
    ensures view { Viewed log.now table.now result }
{
    let view = admit(log, used, table, handle)?;
    if handle.read_only {
        return Err(Refusal::ReadOnly);
    }
    sized(klen, vlen)?;
    Ok(view)
}

// The two entries of a write.
fn laid(
    store: &mut Store,
    version: u64,
    key: &[u8],
    head: &[u8],
    body: &[u8],
) -> Result<Used, Refusal>
    requires { (Counted store.old) × (length key.now ≤ max_key) × (length head.now ≤ 1) × (length body.now ≤ max_value) }
    ensures lent { SameLent store.old store.new }
    ensures appends { AppendsTo store.old (plan version key.now (head.now ++ body.now)) result store.new }
{
    let write = write_code(version, key);
    let stored = version_code(key, version);
    append_pair(
        store,
        write.as_slice(),
        &key[..0],
        stored.as_slice(),
        head,
        body,
    )
}

// A write of the payload that is head, one byte, and then body, the user's.
fn write(
    log: &mut [u8],
    used: Used,
    table: &mut [u32],
    handle: Handle,
    key: &[u8],
    head: &[u8],
    body: &[u8],
) -> Result<Used, Refusal>
    requires { length head.now ≤ 1 }
    ensures { Writes log.old used.len table.old handle key.now (head.now ++ body.now) (length body.now)
        result log.new table.new }
{
    let view = allowed(log, used, table, handle, key.len(), body.len())?;
    search(&view, handle, key)?;
    let mark = view.mark;
    let mut store = Store { log, table, mark };
    laid(&mut store, handle.version, key, head, body)
}

pub fn set(
    log: &mut [u8],
    used: Used,
    table: &mut [u32],
    handle: Handle,
    key: &[u8],
    value: &[u8],
) -> Result<Used, Refusal>
    ensures { Writes log.old used.len table.old handle key.now (value_bytes (Some value.now)) (length value.now)
        result log.new table.new }
{
    write(log, used, table, handle, key, &[VALUE_TAG], value)
}

// A tombstone's payload has no bytes of the user's, and so is never refused with 5.
pub fn delete(
    log: &mut [u8],
    used: Used,
    table: &mut [u32],
    handle: Handle,
    key: &[u8],
) -> Result<Used, Refusal>
    ensures { Writes log.old used.len table.old handle key.now (value_bytes None) 0 result log.new table.new }
{
    write(log, used, table, handle, key, &[GONE_TAG], &key[..0])
}
