// As-of: a read-only handle of a version that was given, with the snapshot stored at its begin. Part of toydb's storage/mvcc.rs.
ghost use Rattle.std.specs.Prelude.{◌≡◌};
ghost use Rattle.keycode.specs.key.Keys.{encode, txn_active_snapshot};
ghost use Rattle.bitcask.specs.engine.Views.{shown};
ghost use Rattle.bitcask.specs.engine.Spots.{look_row, row_value};
ghost use Rattle.mvcc.specs.as_of.Answers.{snapshot_read};
ghost use Rattle.mvcc.specs.as_of.Promises.{BeginsAsOf};
ghost use Rattle.mvcc.specs.request.Given.{begun_of};

use crate::begun::Begun;
use crate::handle::Handle;
use crate::payload::read_set;
use crate::snapshot::next_version;
use bitcask::Used;
use bitcask::engine::{View, enter};
use keycode::Refusal;
use keycode::code::snapshot_code;

// The handle of a version with its snapshot; an empty set where there is none.
fn stored(view: &View, version: u64) -> Result<Handle, Refusal>
    ensures { result ≡ snapshot_read version (row_value (look_row (encode (txn_active_snapshot version)) (shown view.now))) }
{
    let handle = Handle::fresh(version, true);
    let code = snapshot_code(version);
    let Ok(p) = view.find(code.as_slice()) else {
        return Ok(handle);
    };
    read_set(view.value_at(p), handle)
}

// 13, then 12 for NextVersion, 10, then 12 or 9 for the snapshot.
fn past(log: &[u8], used: Used, table: &[u32], version: u64) -> Result<(Used, Handle), Refusal>
    ensures { BeginsAsOf log.now used.len table.now version (begun_of result) }
{
    let view = enter(log, used, table)?;
    let next = next_version(&view).ok_or(Refusal::BadStore)?;
    if next <= version {
        return Err(Refusal::NoSuchVersion);
    }
    let handle = stored(&view, version)?;
    Ok((used, handle))
}

pub fn begin_as_of(log: &[u8], used: Used, table: &[u32], version: u64) -> Begun
    ensures { BeginsAsOf log.now used.len table.now version result }
{
    Begun::from(past(log, used, table, version))
}
