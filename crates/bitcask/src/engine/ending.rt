// Rows ended: a tombstone for each row of a span, whose key is copied forward inside the log, and then all of them out of the table with
// one move. These never refuse: the callers ask before for the room (`span_room`).
ghost use Rattle.std.specs.Prelude.{◌≡◌, ◌+◌, ◌≤◌, ◌<◌, length};
ghost use Rattle.keycode.specs.Limits.{max_log};
ghost use Rattle.bitcask.specs.keydir.Slots.{slots_of};
ghost use Rattle.bitcask.specs.engine.Marks.{Held};
ghost use Rattle.bitcask.specs.engine.Spots.{rank};
ghost use Rattle.bitcask.specs.engine.Endings.{tombed, tombed_all, span_slots, ended_span};
ghost use Rattle.bitcask.specs.engine.Stores.{state_of, kept, SameLent};

use crate::engine::change::moved;
use crate::engine::mark::Mark;
use crate::engine::span::Span;
use crate::engine::spot::Spot;
use crate::engine::store::Store;
use crate::engine::tomb::tomb_of;
use crate::keydir::{Slot, remove_span, slot_at};

// The tombstone of a slot's key at `at`; gives the end behind it. Where the key does not lie in the entries, or a tombstone has no room,
// nothing is laid: that is so on tables alone that were altered by hand.
fn tomb_at(log: &mut [u8], at: usize, s: Slot) -> usize
    requires { (at ≤ length log.old) × (length log.old ≤ max_log) }
    ensures { (record { log = log.new; used = result } ≡ tombed (record { log = log.old; used = at }) s) × (result ≤ length log.old) }
{
    let from = s.key_at();
    let len = s.klen as usize;
    if at < from + len {
        return at;
    }
    if log.len() < at + 8 + len {
        return at;
    }
    tomb_of(log, at, from, len);
    at + 8 + len
}

// The tombstones of the rows from number `from` on, to `to`; gives the end behind them. It is no method of the store: it writes the log
// and reads the table, and a store lends both or none.
fn lay_tombs(log: &mut [u8], table: &[u32], mark: Mark, from: usize, to: usize) -> usize
    requires { (Held log.old table.now mark) × (to ≤ mark.count) }
    ensures { record { log = log.new; used = result }
        ≡ tombed_all (record { log = log.old; used = mark.used.len }) (span_slots from to (slots_of mark.count table.now)) }
{
    let mut at = mark.used.len;
    for i in from..to {
        at = tomb_at(log, at, slot_at(table, i));
    }
    at
}

impl Store<'_> {
    // All rows of a span ended.
    pub fn end_span(&mut self, span: Span)
        requires { rank span.to (kept self.old) ≤ length (kept self.old) }
        ensures lent { SameLent self.old self.new }
        ensures state { state_of self.new ≡ ended_span (state_of self.old) (rank span.from (kept self.old)) (rank span.to (kept self.old)) }
    {
        let from = span.from.number;
        let to = span.to.number;
        if to <= from {
            return;
        }
        let mark = self.mark;
        let table = &mut *self.table;
        let end = lay_tombs(self.log, table, mark, from, to);
        remove_span(table, mark.count, from, to);
        self.mark = Mark {
            used: moved(mark.used, end),
            count: mark.count - (to - from),
        };
    }

    // One row ended.
    pub fn end_at(&mut self, spot: Spot)
        requires { rank spot (kept self.old) < length (kept self.old) }
        ensures lent { SameLent self.old self.new }
        ensures state { state_of self.new ≡ ended_span (state_of self.old) (rank spot (kept self.old)) (rank spot (kept self.old) + 1) }
    {
        let to = Spot {
            number: spot.number + 1,
        };
        self.end_span(Span { from: spot, to });
    }
}
