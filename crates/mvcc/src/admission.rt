// The checks that come first in every transaction call: 13, then 3. The store is entered here, once.
ghost use Rattle.std.specs.Prelude.{◌≡◌};
ghost use Rattle.bitcask.specs.engine.Views.{shown, marked, Viewed};
ghost use Rattle.bitcask.specs.engine.Spots.{has_row};
ghost use Rattle.mvcc.specs.request.Checks.{active_key, open_by};
ghost use Rattle.mvcc.specs.admission.Admits.{Admits};

use crate::handle::{Handle, LAST_VERSION};
use bitcask::Used;
use bitcask::engine::{View, enter};
use keycode::Refusal;
use keycode::code::active_code;

// Whether a key is in the store.
pub(crate) fn live(view: &View, key: &[u8]) -> bool
    ensures { result ≡ has_row key.now (shown view.now) }
{
    view.find(key).is_ok()
}

// Whether a handle's transaction is open.
pub(crate) fn open(view: &View, handle: Handle) -> bool
    ensures { result ≡ open_by handle (has_row (active_key handle) (shown view.now)) }
{
    if handle.read_only {
        return true;
    }
    let version = handle.version;
    if version == 0 || version == LAST_VERSION {
        return false;
    }
    let code = active_code(version);
    live(view, code.as_slice())
}

// 13 for the sizes and the handle, then 3.
pub(crate) fn admit<'a, 't>(
    log: &'a [u8],
    used: Used,
    table: &'t [u32],
    handle: Handle,
) -> Result<View<'a, 't>, Refusal>
    ensures mark { Admits log.now used table.now handle (marked result) }
    ensures view { Viewed log.now table.now result }
{
    let view = enter(log, used, table)?;
    if !handle.sound() {
        return Err(Refusal::BadRequest);
    }
    if open(&view, handle) {
        Ok(view)
    } else {
        Err(Refusal::NotOpen)
    }
}
