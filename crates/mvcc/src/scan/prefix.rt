// The scan step of a transaction, over the user keys that begin with a prefix.
ghost use Rattle.std.specs.Prelude.{◌≡◌, true, ◌≤◌, length, is_some};
ghost use Rattle.keycode.specs.code.Codes.{key_bytes};
ghost use Rattle.bitcask.specs.engine.Views.{shown};
ghost use Rattle.mvcc.specs.walk.Walks.{step_rows};
ghost use Rattle.mvcc.specs.scan.Bounds.{Uppers, last_in, prefix_fits, prefix_rows};
ghost use Rattle.mvcc.specs.scan.Promises.{ScansPrefix};

use crate::admission::admit;
use crate::handle::Handle;
use crate::scan::bounds::step_past;
use crate::scan::checks::prefix_fits;
use bitcask::engine::View;
use bitcask::entry::write::copy_into;
use bitcask::{Bound, KeyValue, Used};
use keycode::code::{Code, prefix_code};
use keycode::limits::KEY_BYTES;
use keycode::{Refusal, prefix_end};

// An upper bound of engine keys.
#[derive(Clone, Copy)]
pub struct Upper {
    pub bound: Bound,
    pub code: Code,
}

// The bound of the keys that begin with a prefix's code: its end, if it has one.
fn upper_of(prefix: &[u8]) -> Upper
    requires { length prefix.now ≤ key_bytes }
    ensures { Uppers prefix.now result }
{
    let mut bytes = [0u8; KEY_BYTES];
    match prefix_end(prefix) {
        None => Upper {
            bound: Bound::Unbounded,
            code: Code { len: 0, bytes },
        },
        Some(end) => {
            let keep = end.keep;
            copy_into(&prefix[..keep], &mut bytes, 0);
            bytes[keep] = end.last;
            Upper {
                bound: Bound::Excluded,
                code: Code {
                    len: keep + 1,
                    bytes,
                },
            }
        }
    }
}

// The step over the rows whose keys begin with the prefix's code and lie past the last given key.
fn step_begun(
    view: &View,
    handle: Handle,
    prefix: &[u8],
    past: Option<&[u8]>,
) -> Result<KeyValue, Refusal>
    requires { prefix_fits prefix.now (is_some past) (last_in past) ≡ true }
    ensures { result ≡ step_rows handle view.now.log.now (prefix_rows prefix.now (is_some past.entry) (last_in past.entry) (shown view.now)) }
{
    let code = prefix_code(prefix);
    let upper = upper_of(code.as_slice());
    step_past(
        view,
        handle,
        Bound::Included,
        code.as_slice(),
        upper.bound,
        upper.code.as_slice(),
        past,
    )
}

// The last key stands beside its flag, as in `scan_step`: `ScansPrefix` speaks of any slice beside any flag.
pub fn scan_prefix_step(
    log: &[u8],
    used: Used,
    table: &[u32],
    handle: Handle,
    prefix: &[u8],
    given: bool,
    last: &[u8],
) -> Result<KeyValue, Refusal>
    ensures { ScansPrefix log.now used.len table.now handle prefix.now given last.now result }
{
    let view = admit(log, used, table, handle)?;
    let past = given.then_some(last);
    if !prefix_fits(prefix, past) {
        return Err(Refusal::KeyTooLong);
    }
    step_begun(&view, handle, prefix, past)
}
