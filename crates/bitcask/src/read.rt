// Get and scan step, as toydb's BitCask (storage/bitcask.rs, engine.rs) has them. They answer places; `part` hands back the bytes at
// one, as a part of the caller's log.
ghost use Rattle.std.specs.Prelude.{◌≡◌, ◌<◌, max, take, drop};
ghost use Rattle.bitcask.specs.read.Ranks.{last_bound};
ghost use Rattle.bitcask.specs.read.Promises.{Gets, Steps, key_part, value_part};

use crate::answers::{Bound, KeyValue};
use crate::keydir::slots::slot_at;
use crate::keydir::{Slot, count, find};
use crate::rank::{from_bound, upto_bound};
use crate::request::{Used, fits};
use keycode::parts::clip;
use keycode::{Part, Refusal};

// The bytes at a place, cut where the log ends.
pub fn part<'a>(log: &'a [u8], place: Part) -> &'a [u8]
    ensures { result.now ≡ take place.len (drop place.at log.now) }
{
    clip(log, place.at, place.len)
}

// The place of a slot's key.
pub(crate) fn key_part(s: Slot) -> Part
    ensures { result ≡ key_part s }
{
    Part {
        at: s.key_at(),
        len: s.klen as usize,
    }
}

// The place of a slot's value.
pub(crate) fn value_part(s: Slot) -> Part
    ensures { result ≡ value_part s }
{
    Part {
        at: s.value_at(),
        len: s.vlen as usize,
    }
}

pub fn get(log: &[u8], used: Used, table: &[u32], key: &[u8]) -> Result<Part, Refusal>
    ensures { Gets log.now used.len table.now key.now result }
{
    if !fits(log.len(), used.len, table.len()) {
        return Err(Refusal::BadRequest);
    }
    let n = count(table);
    match find(log, table, n, key) {
        Ok(i) => Ok(value_part(slot_at(table, i))),
        Err(_) => Err(Refusal::Absent),
    }
}

fn last_bound(given: bool) -> Bound
    ensures { result ≡ last_bound given }
{
    if given {
        Bound::Excluded
    } else {
        Bound::Unbounded
    }
}

// The first pair within the bounds and past the last given key. A slice beside a bound that is none, or a last key that is not given, is
// not looked at. These stand beside their flags, and not in an Option or a Bound, since `Steps` and the theorems over runs speak of any
// slice beside any flag, and a type would shut some of them out.
pub fn scan_step(
    log: &[u8],
    used: Used,
    table: &[u32],
    lower: Bound,
    low: &[u8],
    upper: Bound,
    high: &[u8],
    given: bool,
    last: &[u8],
) -> Result<KeyValue, Refusal>
    ensures { Steps log.now used.len table.now lower low.now upper high.now given last.now result }
{
    if !fits(log.len(), used.len, table.len()) {
        return Err(Refusal::BadRequest);
    }
    let n = count(table);
    let a = from_bound(log, table, n, lower, low);
    let b = from_bound(log, table, n, last_bound(given), last);
    let start = a.max(b);
    let end = upto_bound(log, table, n, upper, high);
    if start < end {
        let s = slot_at(table, start);
        return Ok(KeyValue {
            key: key_part(s),
            value: value_part(s),
        });
    }
    Err(Refusal::Absent)
}
