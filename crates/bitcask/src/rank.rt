// Ranks: how many keys are below one, and the numbers that bounds are. A range of keys is a range of numbers, which its callers walk.
ghost use Rattle.std.specs.Prelude.{◌≡◌, ◌*◌, ◌≤◌, length};
ghost use Rattle.bitcask.specs.keydir.Slots.{slot_words, slots_of};
ghost use Rattle.bitcask.specs.read.Ranks.{below as below_of, upto as upto_of, from_bound, upto_bound};

use crate::answers::Bound;
use crate::keydir::find;

// How many keys are below one.
pub(crate) fn below(log: &[u8], table: &[u32], count: usize, key: &[u8]) -> usize
    requires { slot_words * count ≤ length table.now }
    ensures { (result ≡ below_of log.now key.now (slots_of count table.now)) × (result ≤ count) }
{
    find(log, table, count, key).unwrap_or_else(|before| before)
}

// How many keys are below one or the same.
fn upto(log: &[u8], table: &[u32], count: usize, key: &[u8]) -> usize
    requires { slot_words * count ≤ length table.now }
    ensures { (result ≡ upto_of log.now key.now (slots_of count table.now)) × (result ≤ count) }
{
    match find(log, table, count, key) {
        Ok(i) => i + 1,
        Err(i) => i,
    }
}

// The number of the first key that a lower bound admits. This and `upto_bound` stay two: each arm answers another number of the other's,
// and one function over both would take a closure for each arm.
pub(crate) fn from_bound(log: &[u8], table: &[u32], count: usize, bound: Bound, key: &[u8]) -> usize
    requires { slot_words * count ≤ length table.now }
    ensures { (result ≡ from_bound bound log.now key.now (slots_of count table.now)) × (result ≤ count) }
{
    match bound {
        Bound::Included => below(log, table, count, key),
        Bound::Excluded => upto(log, table, count, key),
        Bound::Unbounded => 0,
    }
}

// The number past the last key that an upper bound admits.
pub(crate) fn upto_bound(log: &[u8], table: &[u32], count: usize, bound: Bound, key: &[u8]) -> usize
    requires { slot_words * count ≤ length table.now }
    ensures { (result ≡ upto_bound bound log.now key.now (slots_of count table.now)) × (result ≤ count) }
{
    match bound {
        Bound::Included => upto(log, table, count, key),
        Bound::Excluded => below(log, table, count, key),
        Bound::Unbounded => count,
    }
}
