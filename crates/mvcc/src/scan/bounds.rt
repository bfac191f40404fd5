// Bounds of user keys as bounds of Version keys, and a scan's step between them.
ghost use Rattle.std.specs.Prelude.{◌≡◌, true, is_some};
ghost use Rattle.keycode.specs.code.Codes.{Codes};
ghost use Rattle.bitcask.specs.engine.Views.{shown};
ghost use Rattle.bitcask.specs.engine.Spots.{rank};
ghost use Rattle.mvcc.specs.walk.Walks.{step_rows};
ghost use Rattle.mvcc.specs.scan.Bounds.{key_fits, last_fits, last_in, keys_fit, low_kind, low_bytes, high_kind, high_bytes, start_rank, past_rows, scan_rows};

use crate::handle::{Handle, LAST_VERSION};
use crate::walk::step_from;
use bitcask::engine::{Spot, View};
use bitcask::{Bound, KeyValue};
use keycode::code::{Code, version_code};
use keycode::limits::KEY_BYTES;
use keycode::{Refusal, compare};

// What a bound of user keys is as a bound of Version keys, its kind and its key, for the lower and for the upper end: where there is none
// these differ in every answer.
fn low_kind(lower: Bound) -> Bound
    ensures { result ≡ low_kind lower }
{
    match lower {
        Bound::Unbounded => Bound::Included,
        kind => kind,
    }
}

fn high_kind(upper: Bound) -> Bound
    ensures { result ≡ high_kind upper }
{
    match upper {
        Bound::Unbounded => Bound::Excluded,
        kind => kind,
    }
}

fn low_code(lower: Bound, low: &[u8]) -> Code
    requires { key_fits lower low.now ≡ true }
    ensures { Codes result (low_bytes lower low.now) }
{
    match lower {
        Bound::Included => version_code(low, 0),
        Bound::Excluded => version_code(low, LAST_VERSION),
        Bound::Unbounded => version_code(&low[..0], 0),
    }
}

fn high_code(upper: Bound, high: &[u8]) -> Code
    requires { key_fits upper high.now ≡ true }
    ensures { Codes result (high_bytes upper high.now) }
{
    match upper {
        Bound::Included => version_code(high, LAST_VERSION),
        Bound::Excluded => version_code(high, 0),
        Bound::Unbounded => Code {
            len: 1,
            bytes: [5u8; KEY_BYTES],
        },
    }
}

// Where a step starts: at the first row that the lower bound admits or, where that comes later, past the versions of the last given key.
// Which comes later the two keys tell, so that one search will do.
fn start(view: &View, lower: Bound, low: &[u8], past: Option<&[u8]>) -> Spot
    requires { last_fits (is_some past) (last_in past) ≡ true }
    ensures { rank result (shown view.now) ≡ start_rank lower low.now (is_some past.entry) (last_in past.entry) (shown view.now) }
{
    let Some(last) = past else {
        return view.first(lower, low);
    };
    let code = low_code(Bound::Excluded, last);
    if compare(low, code.as_slice()).is_gt() {
        return view.first(lower, low);
    }
    view.first(Bound::Excluded, code.as_slice())
}

// The step over the rows within two bounds of engine keys and past the last given key.
pub(crate) fn step_past(
    view: &View,
    handle: Handle,
    lower: Bound,
    low: &[u8],
    upper: Bound,
    high: &[u8],
    past: Option<&[u8]>,
) -> Result<KeyValue, Refusal>
    requires { last_fits (is_some past) (last_in past) ≡ true }
    ensures { result
        ≡ step_rows handle view.now.log.now (past_rows lower low.now upper high.now (is_some past.entry) (last_in past.entry) (shown view.now)) }
{
    let from = start(view, lower, low, past);
    step_from(view, from, upper, high, handle)
}

// The step over the rows within two bounds of user keys and past the last given key.
pub(crate) fn step_between(
    view: &View,
    handle: Handle,
    lower: Bound,
    low: &[u8],
    upper: Bound,
    high: &[u8],
    past: Option<&[u8]>,
) -> Result<KeyValue, Refusal>
    requires { keys_fit lower low.now upper high.now (is_some past) (last_in past) ≡ true }
    ensures { result
        ≡ step_rows handle view.now.log.now (scan_rows lower low.now upper high.now (is_some past.entry) (last_in past.entry) (shown view.now)) }
{
    let a = low_code(lower, low);
    let b = high_code(upper, high);
    step_past(
        view,
        handle,
        low_kind(lower),
        a.as_slice(),
        high_kind(upper),
        b.as_slice(),
        past,
    )
}
