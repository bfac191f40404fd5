// The lengths that a write may have.
ghost use Rattle.std.specs.Prelude.{◌≡◌, leb};
ghost use Rattle.keycode.specs.Limits.{max_key, max_value};
ghost use Rattle.mvcc.specs.append.Lays.{sizes_by};

use keycode::Refusal;
use keycode::limits::{MAX_KEY, MAX_VALUE};

// 4, then 5.
pub(crate) fn sized(klen: usize, vlen: usize) -> Result<(), Refusal>
    ensures { result ≡ sizes_by (leb klen max_key) (leb vlen max_value) }
{
    if MAX_KEY < klen {
        return Err(Refusal::KeyTooLong);
    }
    if MAX_VALUE < vlen {
        return Err(Refusal::ValueTooLong);
    }
    Ok(())
}
