// Changes that wait beside a table and are brought into it in one pass each way: the waiting keys' slots taken out and the gaps closed,
// then new slots put in from the last on. A table of n slots takes k changes at the cost of n moves, not of k times n.
pub(crate) mod out;
pub(crate) mod put;

ghost use Rattle.std.specs.Prelude.{◌*◌, ◌≤◌, length};
ghost use Rattle.bitcask.specs.keydir.Slots.{slot_words, slots_of};
ghost use Rattle.bitcask.specs.merging.Passes.{Flushes};

use crate::keydir::SLOT_WORDS;
use crate::merging::out::take_all;
use crate::merging::put::{count_new, put_all};

// All changes that wait; gives the slots in use then. Changes that have no room, which no caller of this store lets wait, are left out.
pub(crate) fn flush(
    log: &[u8],
    table: &mut [u32],
    count: usize,
    pend: &[u32],
    waiting: usize,
) -> usize
    requires { (slot_words * count ≤ length table.old) × (slot_words * waiting ≤ length pend.now) }
    ensures { Flushes log.now table.old count (slots_of waiting pend.now) result table.new }
{
    let n = take_all(log, table, count, pend, waiting);
    let new = count_new(pend, waiting);
    if table.len() / SLOT_WORDS < n + new {
        return n;
    }
    put_all(log, table, n, pend, waiting, new);
    n + new
}
