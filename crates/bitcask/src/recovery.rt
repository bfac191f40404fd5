// Recovery: a log's table from its entries, as toydb's Log::build_keydir. An opening passes all entries, into a cleared
// table. What would move other slots waits and is brought in many at a time, so that a log whose keys come in no order, or that is full of
// tombstones, opens in nearly the time that its length takes.
pub(crate) mod passing;
pub(crate) mod waiting;

ghost use Rattle.std.specs.Prelude.{◌≡◌, ◌≤◌, length, replicate};
ghost use Rattle.keycode.specs.Limits.{max_log};
ghost use Rattle.bitcask.specs.recovery.Promises.{Walks, Opens};

use crate::recovery::passing::pass;
use crate::request::{Used, fits};
use keycode::Refusal;

// All entries, into a table that is clear: no log has more than it has bytes.
fn walk(log: &[u8], used: usize, table: &mut [u32]) -> Result<Used, Refusal>
    requires { (used ≤ max_log) × (table.old ≡ replicate (length table.old) 0) }
    ensures { Walks log.now used (length table.old) result table.new }
{
    let passed = pass(log, used, table, 0, 0, used)?;
    Ok(Used { len: passed.at })
}

// The table of a log. A refusal leaves every word 0.
pub fn open(log: &[u8], used: Used, table: &mut [u32]) -> Result<Used, Refusal>
    ensures { Opens log.now used.len table.old result table.new }
{
    table.fill(0);
    let len = used.len;
    if !fits(log.len(), len, table.len()) {
        return Err(Refusal::BadRequest);
    }
    walk(log, len, table)
}
