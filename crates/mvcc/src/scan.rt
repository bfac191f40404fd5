// The scan step of a transaction, between two bounds. Part of toydb's storage/mvcc.rs.
pub(crate) mod bounds;
pub(crate) mod checks;
pub(crate) mod prefix;

ghost use Rattle.mvcc.specs.scan.Promises.{Scans};

use crate::admission::admit;
use crate::handle::Handle;
use crate::scan::bounds::step_between;
use crate::scan::checks::keys_fit;
use bitcask::{Bound, KeyValue, Used};
use keycode::Refusal;

// The bounds' keys and the last key stand beside their flags, and not in a Bound or an Option: `Scans` and the theorems over runs speak of
// any slice beside any flag.
pub fn scan_step(
    log: &[u8],
    used: Used,
    table: &[u32],
    handle: Handle,
    lower: Bound,
    low: &[u8],
    upper: Bound,
    high: &[u8],
    given: bool,
    last: &[u8],
) -> Result<KeyValue, Refusal>
    ensures { Scans log.now used.len table.now handle lower low.now upper high.now given last.now result }
{
    let view = admit(log, used, table, handle)?;
    let past = given.then_some(last);
    if !keys_fit(lower, low, upper, high, past) {
        return Err(Refusal::KeyTooLong);
    }
    step_between(&view, handle, lower, low, upper, high, past)
}
