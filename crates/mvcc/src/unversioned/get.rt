// The unversioned get: of a key that has no versions and needs no transaction. One search.
ghost use Rattle.mvcc.specs.unversioned.Promises.{GetsUnversioned};

use bitcask::Used;
use bitcask::engine::enter;
use keycode::code::unversioned_code;
use keycode::limits::MAX_KEY;
use keycode::{Part, Refusal};

pub fn get_unversioned(log: &[u8], used: Used, table: &[u32], key: &[u8]) -> Result<Part, Refusal>
    ensures { GetsUnversioned log.now used.len table.now key.now result }
{
    let view = enter(log, used, table)?;
    if MAX_KEY < key.len() {
        return Err(Refusal::KeyTooLong);
    }
    let code = unversioned_code(key);
    let Ok(p) = view.find(code.as_slice()) else {
        return Err(Refusal::Absent);
    };
    Ok(view.value_place(p))
}
