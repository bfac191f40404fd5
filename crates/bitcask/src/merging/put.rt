// The new slots among those that wait put into a table, from the last on: the slots below `end` are still where they stood, `left` free
// slots follow, and what lies behind those stands where it stays.
ghost use Rattle.std.specs.Prelude.{false, ◌≡◌, ◌+◌, ◌-◌, ◌*◌, ◌≤◌, ◌<◌, length};
ghost use Rattle.bitcask.specs.keydir.Slots.{slot_words, slots_of};
ghost use Rattle.bitcask.specs.merging.Merge.{is_gone, new_of, news};
ghost use Rattle.bitcask.specs.merging.Passes.{PutsNext, PutsAll};

use crate::entry::GONE;
use crate::keydir::slots::store;
use crate::keydir::{SLOT_WORDS, Slot, key_of, slot_at};
use crate::rank::below;

// Whether a waiting slot's key is to go: its value length is a tombstone's.
pub(crate) fn is_gone(s: Slot) -> bool
    ensures { result ≡ is_gone s }
{
    s.vlen == GONE
}

// How many of those that wait are new. By hand: the closure of a `filter` has to be callable for every index, and a slot can be read below
// `waiting` alone.
pub(crate) fn count_new(pend: &[u32], waiting: usize) -> usize
    requires { slot_words * waiting ≤ length pend.now }
    ensures { result ≡ news (slots_of waiting pend.now) }
{
    let mut n = 0;
    for p in 0..waiting {
        if !is_gone(slot_at(pend, p)) {
            n += 1;
        }
    }
    n
}

// Where the slots that are left to place end, and how many free slots follow.
#[derive(Clone, Copy, Debug, PartialEq, Eq)]
struct Room {
    end: usize,
    left: usize,
}

// One new slot; gives where the slots that are left to place end.
fn put_one(log: &[u8], table: &mut [u32], room: Room, s: Slot) -> usize
    requires { (is_gone s ≡ false) × (0 < room.left) × (slot_words * (room.end + room.left) ≤ length table.old) }
    ensures { PutsNext log.now table.old room.end room.left s result (room.left - 1) table.new }
{
    let j = below(log, table, room.end, key_of(log, s));
    let at = SLOT_WORDS * j;
    table.copy_within(at..SLOT_WORDS * room.end, at + SLOT_WORDS * room.left);
    store(table, SLOT_WORDS * (j + room.left - 1), s);
    j
}

// A waiting slot, if it is new.
fn put_next(log: &[u8], table: &mut [u32], room: Room, s: Slot) -> Room
    requires { (new_of s ≤ room.left) × (slot_words * (room.end + room.left) ≤ length table.old) }
    ensures { PutsNext log.now table.old room.end room.left s result.end result.left table.new }
{
    if is_gone(s) {
        return room;
    }
    Room {
        end: put_one(log, table, room, s),
        left: room.left - 1,
    }
}

// All new slots, into a table that has room for them.
pub(crate) fn put_all(
    log: &[u8],
    table: &mut [u32],
    count: usize,
    pend: &[u32],
    waiting: usize,
    new: usize,
)
    requires { (slot_words * (count + new) ≤ length table.old) × (slot_words * waiting ≤ length pend.now) × (new ≡ news (slots_of waiting pend.now)) }
    ensures { PutsAll log.now table.old count (slots_of waiting pend.now) table.new }
{
    let mut room = Room {
        end: count,
        left: new,
    };
    for p in (0..waiting).rev() {
        room = put_next(log, table, room, slot_at(pend, p));
    }
}
