// Begin: a transaction's handle, and the entries that say that it is open. Part of toydb's storage/mvcc.rs.
ghost use Rattle.std.specs.Prelude.{◌≡◌, ◌*◌, ◌-◌, ◌^◌, ◌≤◌, ◌<◌, length};
ghost use Rattle.keycode.specs.Limits.{max_open};
ghost use Rattle.bitcask.specs.engine.Stores.{SameLent, Counted};
ghost use Rattle.mvcc.specs.append.Appends.{AppendsTo};
ghost use Rattle.mvcc.specs.handle.Handles.{set_of};
ghost use Rattle.mvcc.specs.payload.Payloads.{set_bytes};
ghost use Rattle.mvcc.specs.start.Plan.{plan_by};
ghost use Rattle.mvcc.specs.request.Given.{begun_of};
ghost use Rattle.mvcc.specs.start.Promises.{Begins};

use crate::append::pair::append_pair;
use crate::append::three::append_three;
use crate::begun::Begun;
use crate::handle::{Handle, LAST_VERSION};
use crate::payload::{SET_BYTES, VERSION_BYTES, put_set, put_version};
use crate::snapshot::look_round;
use bitcask::Used;
use bitcask::engine::{Store, enter};
use keycode::Refusal;
use keycode::code::{active_code, next_version_code, snapshot_code};
use keycode::limits::MAX_OPEN;

// NextVersion, the snapshot where others are open, and the version's own record. A snapshot's payload is handed in, and how many are open.
fn laid(store: &mut Store, open: usize, version: u64, set: &[u8]) -> Result<Used, Refusal>
    requires { (Counted store.old) × (version < 2 ^ 64 - 1) }
    ensures lent { SameLent store.old store.new }
    ensures appends { AppendsTo store.old (plan_by «open» version set.now) result store.new }
{
    let next = next_version_code();
    let own = active_code(version);
    let mut value = [0u8; VERSION_BYTES];
    put_version(version + 1, &mut value);
    if open == 0 {
        let none = &set[..0];
        return append_pair(
            store,
            next.as_slice(),
            &value[..VERSION_BYTES],
            own.as_slice(),
            none,
            none,
        );
    }
    let snapshot = snapshot_code(version);
    append_three(
        store,
        next.as_slice(),
        &value[..VERSION_BYTES],
        snapshot.as_slice(),
        set,
        own.as_slice(),
    )
}

// 7 and 8, then the entries of a handle with so many versions open.
fn start(store: &mut Store, handle: Handle, open: usize) -> Result<Used, Refusal>
    requires { (Counted store.old) × (handle.version < 2 ^ 64 - 1) × (length (set_bytes (set_of handle)) ≤ 8 * max_open) }
    ensures lent { SameLent store.old store.new }
    ensures appends { AppendsTo store.old (plan_by «open» handle.version (set_bytes (set_of handle))) result store.new }
{
    let mut bytes = [0u8; SET_BYTES];
    let n = put_set(handle, &mut bytes);
    laid(store, open, handle.version, &bytes[..n])
}

// 13, then 12, 11, 9, 7, 8.
fn opened(log: &mut [u8], used: Used, table: &mut [u32]) -> Result<(Used, Handle), Refusal>
    ensures { Begins log.old used.len table.old (begun_of result) log.new table.new }
{
    let view = enter(log, used, table)?;
    let seen = look_round(&view, false).ok_or(Refusal::BadStore)?;
    let handle = seen.handle;
    if handle.version == LAST_VERSION {
        return Err(Refusal::VersionsSpent);
    }
    if MAX_OPEN <= seen.tally {
        return Err(Refusal::TooManyOpen);
    }
    let mark = view.mark;
    let mut store = Store { log, table, mark };
    let after = start(&mut store, handle, seen.tally)?;
    Ok((after, handle))
}

pub fn begin(log: &mut [u8], used: Used, table: &mut [u32]) -> Begun
    ensures { Begins log.old used.len table.old result log.new table.new }
{
    Begun::from(opened(log, used, table))
}
