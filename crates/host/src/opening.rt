// The opening of a log with a table of bytes: what bitcask::recovery makes of words, one entry after the other and each new key moved to
// its place at once, which takes time in the square of the number of keys.
ghost use Rattle.std.specs.Prelude.{true, false, ◌≡◌, ◌+◌, ◌*◌, ◌≤◌, length, replicate, Ok};
ghost use Rattle.keycode.specs.Limits.{max_log};
ghost use Rattle.bitcask.specs.keydir.Slots.{slot_words};
ghost use Rattle.bitcask.specs.recovery.Recover.{room_for};
ghost use Rattle.bitcask.specs.recovery.Promises.{Walks};
ghost use Rattle.host.specs.Table.{words_in};
ghost use Rattle.host.specs.Taking.{Takes, TakesEntry};
ghost use Rattle.host.specs.Promises.{OpensBytes, Opens};

use crate::answers::told;
use crate::bytes::WORD_BYTES;
use crate::place::{enter, find, leave};
use crate::table::Element;
use bitcask::Used;
use bitcask::entry::{Lengths, entry_at};
use bitcask::keydir::{Slot, key_of};
use bitcask::request::fits;
use keycode::Refusal;

// Where the next entry begins, and how many slots are in use there.
#[derive(Clone, Copy, Debug, PartialEq, Eq)]
pub struct Next {
    pub at: usize,
    pub count: usize,
}

// The slot of an entry at an offset: what bitcask's own `Slot::of_entry` makes, which no other crate may ask, since it asks for room.
fn slot_for(at: usize, klen: usize, vlen: usize) -> Slot
    requires { at + 8 + klen + vlen ≤ max_log }
    ensures { result ≡ record { place = at + 1; klen = klen; vlen = vlen } }
{
    Slot {
        place: (at + 1) as u32,
        klen: klen as u32,
        vlen: vlen as u32,
    }
}

// Whether so many slots, of which `count` are in use, take one at a place that was found.
fn has_room(slots: usize, count: usize, found: Result<usize, usize>) -> bool
    ensures { result ≡ room_for slots false found count }
{
    found.is_ok() || count < slots
}

// An entry with a value. Err: none of the slots was free for its key, and the table is as it was.
fn take_set(
    log: &[u8],
    table: &mut [u8],
    count: usize,
    s: Slot,
    end: usize,
) -> Result<Next, Refusal>
    requires { slot_words * count ≤ length (words_in table.old) }
    ensures { Takes log.now (words_in table.old) count (record { slot = s; gone = false }) end result (words_in table.new) }
{
    let found = find(log, table, count, key_of(log, s));
    if !has_room(u8::room(table), count, found) {
        return Err(Refusal::TableFull);
    }
    Ok(Next {
        at: end,
        count: enter(table, count, found, s),
    })
}

// A tombstone.
fn take_del(log: &[u8], table: &mut [u8], count: usize, s: Slot, end: usize) -> Next
    requires { slot_words * count ≤ length (words_in table.old) }
    ensures { Takes log.now (words_in table.old) count (record { slot = s; gone = true }) end (Ok result) (words_in table.new) }
{
    let found = find(log, table, count, key_of(log, s));
    Next {
        at: end,
        count: leave(table, count, found),
    }
}

// The entry at an offset. Ok(None): there is none, the log ends here; Err: none of the slots was free for its key, and the table is as it
// was.
fn take_entry(
    log: &[u8],
    used: usize,
    table: &mut [u8],
    count: usize,
    at: usize,
) -> Result<Option<Next>, Refusal>
    requires { (at ≤ used) × (used ≤ max_log) × (slot_words * count ≤ length (words_in table.old)) }
    ensures { TakesEntry log.now used (words_in table.old) count at result (words_in table.new) }
{
    match entry_at(log, used, at) {
        Some(Lengths::Set { klen, vlen }) => {
            let s = slot_for(at, klen, vlen);
            take_set(log, table, count, s, at + 8 + klen + vlen).map(Some)
        }
        Some(Lengths::Del { klen }) => {
            let s = slot_for(at, klen, 0);
            Ok(Some(take_del(log, table, count, s, at + 8 + klen)))
        }
        None => Ok(None),
    }
}

// All entries, into a table that is clear. Err: some key found no slot, and every byte is 0.
fn walk(log: &[u8], used: usize, table: &mut [u8]) -> Result<Used, Refusal>
    requires { (used ≤ max_log) × (words_in table.old ≡ replicate (length (words_in table.old)) 0) }
    ensures { Walks log.now used (length (words_in table.old)) result (words_in table.new) }
{
    let mut at: usize = 0;
    let mut count: usize = 0;
    loop {
        match take_entry(log, used, table, count, at) {
            Ok(Some(next)) => {
                at = next.at;
                count = next.count;
            }
            Ok(None) => return Ok(Used { len: at }),
            Err(refusal) => {
                table.fill(0);
                return Err(refusal);
            }
        }
    }
}

// The table of a log. Ok: the used length that its entries have; Err: every byte is 0.
fn open(log: &[u8], used: usize, table: &mut [u8]) -> Result<usize, Refusal>
    ensures { OpensBytes log.now used table.old result table.new }
{
    table.fill(0);
    let ragged = table.len() % WORD_BYTES != 0;
    if ragged || !fits(log.len(), used, table.len() / WORD_BYTES) {
        return Err(Refusal::BadRequest);
    }
    Ok(walk(log, used, table)?.len)
}

// The table of a log. A refusal leaves every byte 0.
#[unsafe(no_mangle)]
pub extern "C" fn tjaldrum_open(log: &[u8], used: usize, table: &mut [u8]) -> u64
    ensures { Opens log.now used table.old result table.new }
{
    told(open(log, used, table))
}
