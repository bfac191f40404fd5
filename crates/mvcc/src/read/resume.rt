// Resume: whether a handle's transaction goes on, and the handle back.
ghost use Rattle.mvcc.specs.read.Promises.{Resumes};
ghost use Rattle.mvcc.specs.request.Given.{begun_of};

use crate::admission::admit;
use crate::begun::Begun;
use crate::handle::Handle;
use bitcask::Used;
use keycode::Refusal;

// 13, then 3.
fn resumed(log: &[u8], used: Used, table: &[u32], handle: Handle) -> Result<(Used, Handle), Refusal>
    ensures { Resumes log.now used.len table.now handle (begun_of result) }
{
    admit(log, used, table, handle)?;
    Ok((used, handle))
}

pub fn resume(log: &[u8], used: Used, table: &[u32], handle: Handle) -> Begun
    ensures { Resumes log.now used.len table.now handle result }
{
    Begun::from(resumed(log, used, table, handle))
}
