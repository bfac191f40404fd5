// Where a key belongs in the table, and a slot put in or taken out there. Any words and any log may arrive.
ghost use Rattle.std.specs.Prelude.{◌≡◌, ◌+◌, ◌*◌, ◌≤◌, ◌<◌, length};
ghost use Rattle.bitcask.specs.keydir.Slots.{slot_words, slots_of};
ghost use Rattle.bitcask.specs.keydir.Place.{order_at, place_of, Among, entered, cut_at, Becomes};

use crate::keydir::slots::{SLOT_WORDS, Slot, insert, key_of, remove, replace, slot_at};
use keycode::compare;
use std::cmp::Ordering;

// The i-th slot's key against a key.
fn order_at(log: &[u8], table: &[u32], count: usize, i: usize, key: &[u8]) -> Ordering
    requires { (i < count) × (slot_words * count ≤ length table.now) }
    ensures { result ≡ order_at log.now key.now (slots_of count table.now) i }
{
    compare(key_of(log, slot_at(table, i)), key)
}

// The place of a key among the first `count` slots, by halving. Ok: the slot that has the key; Err: the one before which it belongs.
// By hand: any words and any log may arrive, and the contract says for all of them which place this is; the library's
// `binary_search_by` promises one only where the keys rise.
pub(crate) fn find(log: &[u8], table: &[u32], count: usize, key: &[u8]) -> Result<usize, usize>
    requires { slot_words * count ≤ length table.now }
    ensures { result ≡ place_of log.now key.now (slots_of count table.now) }
{
    let mut low = 0;
    let mut high = count;
    while low < high {
        let mid = low + (high - low) / 2;
        match order_at(log, table, count, mid, key) {
            Ordering::Less => {
                low = mid + 1;
            }
            Ordering::Equal => {
                return Ok(mid);
            }
            Ordering::Greater => {
                high = mid;
            }
        }
    }
    Err(low)
}

// A slot put in at a place that was found; gives the slots in use then. A new one that has no room leaves the table.
pub(crate) fn enter(table: &mut [u32], count: usize, found: Result<usize, usize>, s: Slot) -> usize
    requires { (Among count found) × (slot_words * count ≤ length table.old) }
    ensures { Becomes table.old count (entered table.old s found (slots_of count table.old)) table.new result }
{
    match found {
        Ok(i) => {
            replace(table, count, i, s);
            count
        }
        Err(i) => {
            if table.len() / SLOT_WORDS <= count {
                return count;
            }
            insert(table, count, i, s);
            count + 1
        }
    }
}

// The slot at a place that was found taken out, if there is one; gives the slots in use then.
pub(crate) fn leave(table: &mut [u32], count: usize, found: Result<usize, usize>) -> usize
    requires { (Among count found) × (slot_words * count ≤ length table.old) }
    ensures { Becomes table.old count (cut_at found (slots_of count table.old)) table.new result }
{
    match found {
        Ok(i) => {
            remove(table, count, i);
            count - 1
        }
        Err(_) => count,
    }
}
