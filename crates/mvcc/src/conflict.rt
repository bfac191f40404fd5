// A write's search for conflicts: the last version of its key, from the lowest that may be unseen on. One search finds where the key's
// versions end, and only the row before is read.
ghost use Rattle.std.specs.Prelude.{◌≡◌, ◌≤◌, length};
ghost use Rattle.keycode.specs.Limits.{max_key};
ghost use Rattle.bitcask.specs.engine.Views.{shown};
ghost use Rattle.bitcask.specs.engine.Rows.{pairs};
ghost use Rattle.mvcc.specs.conflict.Conflicts.{seen_bytes, search_by};
ghost use Rattle.mvcc.specs.conflict.Conflicts.{unseen_rows};

use crate::handle::{Handle, LAST_VERSION};
use crate::version::version_of;
use bitcask::Bound;
use bitcask::engine::View;
use keycode::Refusal;
use keycode::code::version_code;

// What the last record found says: a version that the handle does not see is another transaction's.
fn met(handle: Handle, key: &[u8]) -> Result<(), Refusal>
    ensures { result ≡ seen_bytes handle key.now }
{
    let version = version_of(key).ok_or(Refusal::BadStore)?;
    if handle.sees(version) {
        Ok(())
    } else {
        Err(Refusal::Conflict)
    }
}

// 12 where the record does not decode, 6 where the handle does not see it.
pub(crate) fn search(view: &View, handle: Handle, key: &[u8]) -> Result<(), Refusal>
    requires { length key.now ≤ max_key }
    ensures { result ≡ search_by handle (pairs (unseen_rows handle key.now (shown view.now))) }
{
    let high = version_code(key, LAST_VERSION);
    let end = view.past(Bound::Included, high.as_slice());
    let low = version_code(key, handle.lowest());
    match view.row_before(end, Bound::Included, low.as_slice()) {
        None => Ok(()),
        Some(p) => met(handle, view.key_at(p)),
    }
}
