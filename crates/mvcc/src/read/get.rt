// Get: the place of the value of the highest version that a handle sees. One search, and then a walk down.
ghost use Rattle.std.specs.Prelude.{◌≡◌, ◌≤◌, length};
ghost use Rattle.keycode.specs.Limits.{max_key};
ghost use Rattle.bitcask.specs.engine.Views.{shown};
ghost use Rattle.mvcc.specs.version.Seen.{located_seen};
ghost use Rattle.mvcc.specs.read.Promises.{Gets};
ghost use Rattle.mvcc.specs.version.Seen.{last_rows, version_rows};

use crate::admission::admit;
use crate::handle::Handle;
use crate::version::{Seen, seek};
use bitcask::engine::View;
use bitcask::{Bound, Used};
use keycode::code::version_code;
use keycode::limits::MAX_KEY;
use keycode::{Part, Refusal};

// What the versions of a key up to the handle's own say.
fn highest(view: &View, handle: Handle, key: &[u8]) -> Seen
    requires { length key.now ≤ max_key }
    ensures { result ≡ last_rows handle (version_rows key.now handle.version (shown view.now)) }
{
    let last = version_code(key, handle.version);
    let end = view.past(Bound::Included, last.as_slice());
    let first = version_code(key, 0);
    seek(view, end, first.as_slice(), handle)
}

fn located(seen: Seen) -> Result<Part, Refusal>
    ensures { result ≡ located_seen seen }
{
    match seen {
        Seen::Hidden | Seen::Gone => Err(Refusal::Absent),
        Seen::Bad => Err(Refusal::BadStore),
        Seen::Value(p) => Ok(p),
    }
}

pub fn get(
    log: &[u8],
    used: Used,
    table: &[u32],
    handle: Handle,
    key: &[u8],
) -> Result<Part, Refusal>
    ensures { Gets log.now used.len table.now handle key.now result }
{
    let view = admit(log, used, table, handle)?;
    if MAX_KEY < key.len() {
        return Err(Refusal::KeyTooLong);
    }
    located(highest(&view, handle, key))
}
