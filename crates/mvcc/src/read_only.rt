// Begin in its read-only form, which appends nothing. Part of toydb's storage/mvcc.rs.
ghost use Rattle.mvcc.specs.read_only.Promises.{BeginsReading};
ghost use Rattle.mvcc.specs.request.Given.{begun_of};

use crate::begun::Begun;
use crate::handle::Handle;
use crate::snapshot::look_round;
use bitcask::Used;
use bitcask::engine::enter;
use keycode::Refusal;
use keycode::limits::MAX_OPEN;

// 13, then 12, then 9.
fn reading(log: &[u8], used: Used, table: &[u32]) -> Result<(Used, Handle), Refusal>
    ensures { BeginsReading log.now used.len table.now (begun_of result) }
{
    let view = enter(log, used, table)?;
    let seen = look_round(&view, true).ok_or(Refusal::BadStore)?;
    if MAX_OPEN < seen.tally {
        return Err(Refusal::TooManyOpen);
    }
    Ok((used, seen.handle))
}

pub fn begin_read_only(log: &[u8], used: Used, table: &[u32]) -> Begun
    ensures { BeginsReading log.now used.len table.now result }
{
    Begun::from(reading(log, used, table))
}
