// 4 of the keys that a scan step is handed.
ghost use Rattle.std.specs.Prelude.{◌≡◌, leb, length, is_some};
ghost use Rattle.keycode.specs.Limits.{max_key};
ghost use Rattle.mvcc.specs.scan.Bounds.{key_fits, last_fits, last_in, keys_fit, prefix_fits};

use bitcask::Bound;
use keycode::limits::MAX_KEY;

fn short(key: &[u8]) -> bool
    ensures { result ≡ leb (length key.now) max_key }
{
    key.len() <= MAX_KEY
}

// A slice beside a bound that is none is not looked at.
fn key_fits(bound: Bound, key: &[u8]) -> bool
    ensures { result ≡ key_fits bound key.now }
{
    matches!(bound, Bound::Unbounded) || short(key)
}

fn last_fits(past: Option<&[u8]>) -> bool
    ensures { result ≡ last_fits (is_some past.entry) (last_in past.entry) }
{
    past.is_none_or(short)
}

pub(crate) fn keys_fit(
    lower: Bound,
    low: &[u8],
    upper: Bound,
    high: &[u8],
    past: Option<&[u8]>,
) -> bool
    ensures { result ≡ keys_fit lower low.now upper high.now (is_some past.entry) (last_in past.entry) }
{
    key_fits(lower, low) && key_fits(upper, high) && last_fits(past)
}

pub(crate) fn prefix_fits(prefix: &[u8], past: Option<&[u8]>) -> bool
    ensures { result ≡ prefix_fits prefix.now (is_some past.entry) (last_in past.entry) }
{
    short(prefix) && last_fits(past)
}
