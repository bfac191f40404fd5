// Commit: 13, 3, 7, then a tombstone for each record of the version's writes and for its TxnActive. The records are deleted as they are,
// decodable or not.
ghost use Rattle.mvcc.specs.end.Promises.{Commits};

use crate::end::clear::clear;
use crate::end::to_close;
use crate::handle::Handle;
use bitcask::Used;
use bitcask::engine::Store;
use keycode::Refusal;

pub fn commit(
    log: &mut [u8],
    used: Used,
    table: &mut [u32],
    handle: Handle,
) -> Result<Used, Refusal>
    ensures { Commits log.old used.len table.old handle result log.new table.new }
{
    let Some(closing) = to_close(log, used, table, handle)? else {
        return Ok(used);
    };
    let mark = closing.mark;
    clear(
        &mut Store { log, table, mark },
        closing.span,
        closing.code.as_slice(),
    )
}
