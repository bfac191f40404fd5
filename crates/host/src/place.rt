// Where a key belongs in a table, and a slot put in or taken out there, whatever the table is a slice of.
ghost use Rattle.std.specs.Prelude.{◌≡◌, ◌*◌, ◌≤◌, ◌<◌, length};
ghost use Rattle.bitcask.specs.keydir.Slots.{slot_words, slots_of};
ghost use Rattle.bitcask.specs.keydir.Place.{order_at, place_of, Among, entered, cut_at, Becomes};

use crate::table::{Element, insert, remove, replace};
use bitcask::keydir::{Slot, key_of};
use keycode::compare;
use std::cmp::Ordering;

// The i-th slot's key against a key.
fn order_at<E: Element>(log: &[u8], table: &[E], count: usize, i: usize, key: &[u8]) -> Ordering
    requires { (i < count) × (slot_words * count ≤ length (E.words table.now)) }
    ensures { result ≡ order_at log.now key.now (slots_of count (E.words table.now)) i }
{
    compare(key_of(log, E::slot_at(table, i)), key)
}

// The place of a key among the first `count` slots, by halving. By hand, as bitcask's is: the contract says for all tables which it is.
// bitcask's stands beside it, over words: this one is over any elements, and was not measured against the words' own.
pub(crate) fn find<E: Element>(
    log: &[u8],
    table: &[E],
    count: usize,
    key: &[u8],
) -> Result<usize, usize>
    requires { slot_words * count ≤ length (E.words table.now) }
    ensures { result ≡ place_of log.now key.now (slots_of count (E.words table.now)) }
{
    let mut low = 0;
    let mut high = count;
    while low < high {
        let mid = low + (high - low) / 2;
        let o = order_at(log, table, count, mid, key);
        match o {
            Ordering::Less => {
                low = mid + 1;
            }
            Ordering::Equal => {
                return Ok(mid);
            }
            Ordering::Greater => {
                high = mid;
            }
        }
    }
    Err(low)
}

// A slot put in at a place that was found; gives the slots in use then. A new one that has no room leaves the table.
pub(crate) fn enter<E: Element>(
    table: &mut [E],
    count: usize,
    found: Result<usize, usize>,
    s: Slot,
) -> usize
    requires { (Among count found) × (slot_words * count ≤ length (E.words table.old)) }
    ensures { Becomes (E.words table.old) count (entered (E.words table.old) s found (slots_of count (E.words table.old))) (E.words table.new) result }
{
    match found {
        Ok(i) => {
            replace(table, count, i, s);
            count
        }
        Err(i) => {
            if E::room(table) <= count {
                return count;
            }
            insert(table, count, i, s);
            count + 1
        }
    }
}

// The slot at a place that was found taken out, if there is one; gives the slots in use then.
pub(crate) fn leave<E: Element>(table: &mut [E], count: usize, found: Result<usize, usize>) -> usize
    requires { (Among count found) × (slot_words * count ≤ length (E.words table.old)) }
    ensures { Becomes (E.words table.old) count (cut_at found (slots_of count (E.words table.old))) (E.words table.new) result }
{
    match found {
        Ok(i) => {
            remove(table, count, i);
            count - 1
        }
        Err(_) => count,
    }
}
