// Rollback: 13, 3, 12, 7, then for each record of the version's writes a tombstone of the version that it names and one of its own, and
// last one for TxnActive.
ghost use Rattle.mvcc.specs.end.Promises.{RollsBack};

use crate::end::to_close;
use crate::handle::Handle;
use crate::undo::undo;
use bitcask::Used;
use keycode::Refusal;

pub fn rollback(
    log: &mut [u8],
    used: Used,
    table: &mut [u32],
    handle: Handle,
) -> Result<Used, Refusal>
    ensures { RollsBack log.old used.len table.old handle result log.new table.new }
{
    let Some(closing) = to_close(log, used, table, handle)? else {
        return Ok(used);
    };
    undo(
        log,
        table,
        closing.mark,
        closing.span,
        handle.version,
        closing.code.as_slice(),
    )
}
