// The unversioned set: 13, 4, 5, then the engine's 7 and 8.
ghost use Rattle.mvcc.specs.unversioned.Promises.{SetsPlain};

use crate::append::one::append_one;
use crate::append::size::sized;
use bitcask::Used;
use bitcask::engine::{Store, enter};
use keycode::Refusal;
use keycode::code::unversioned_code;

pub fn set_unversioned(
    log: &mut [u8],
    used: Used,
    table: &mut [u32],
    key: &[u8],
    value: &[u8],
) -> Result<Used, Refusal>
    ensures { SetsPlain log.old used.len table.old key.now value.now result log.new table.new }
{
    let view = enter(log, used, table)?;
    let mark = view.mark;
    sized(key.len(), value.len())?;
    let code = unversioned_code(key);
    let mut store = Store { log, table, mark };
    append_one(&mut store, code.as_slice(), value)
}
