// The rows of a range. How many a span has is known of any log, table and mark; the method `rows_in` is the same of a view.
ghost use Rattle.std.specs.Prelude.{◌≡◌, ◌-◌, ◌≤◌, length};
ghost use Rattle.bitcask.specs.engine.Rows.{rows};
ghost use Rattle.bitcask.specs.engine.Views.{shown};
ghost use Rattle.bitcask.specs.engine.Spots.{rank};
ghost use Rattle.bitcask.specs.engine.Ranges.{Spans, between};
ghost use Rattle.bitcask.specs.engine.Prefixes.{prefix_most, Prefixes};
ghost use Rattle.bitcask.specs.engine.Endings.{room_tombs};

use crate::answers::Bound;
use crate::append::room_after;
use crate::engine::mark::Mark;
use crate::engine::spot::Spot;
use crate::engine::view::View;
use crate::entry::write::copy_into;
use keycode::limits::KEY_BYTES;
use keycode::prefix_end;

// The rows from the first spot on, up to the second, which is not one of them. There are none where they meet.
#[derive(Clone, Copy, Debug, PartialEq, Eq)]
pub struct Span {
    pub from: Spot,
    pub to: Spot,
}

// How many rows a span has.
pub fn rows_in(log: &[u8], table: &[u32], mark: Mark, span: Span) -> usize
    ensures { result ≡ rank span.to (rows log.now table.now mark) - rank span.from (rows log.now table.now mark) }
{
    span.to.number.saturating_sub(span.from.number)
}

impl View<'_, '_> {
    // The rows whose keys lie within the bounds.
    pub(crate) fn range(&self, lower: Bound, low: &[u8], upper: Bound, high: &[u8]) -> Span
        ensures { Spans (shown self.now) lower low.now upper high.now result }
    {
        Span {
            from: self.first(lower, low),
            to: self.past(upper, high),
        }
    }

    // The rows whose keys begin with a prefix, which is no longer than a key.
    pub fn prefix_span(&self, prefix: &[u8]) -> Span
        requires { length prefix.now ≤ prefix_most }
        ensures { Prefixes (shown self.now) prefix.now result }
    {
        match prefix_end(prefix) {
            None => self.range(Bound::Included, prefix, Bound::Unbounded, prefix),
            Some(end) => {
                let keep = end.keep;
                let mut bytes = [0u8; KEY_BYTES];
                copy_into(&prefix[..keep], &mut bytes, 0);
                bytes[keep] = end.last;
                let n = keep + 1;
                self.range(Bound::Included, prefix, Bound::Excluded, &bytes[..n])
            }
        }
    }

    // `rows_in` of a span of this view.
    pub fn rows_in(&self, span: Span) -> usize
        ensures { result ≡ rank span.to (shown self.now) - rank span.from (shown self.now) }
    {
        rows_in(self.log, self.table, self.mark, span)
    }

    // The room that the tombstones of a span's rows leave. It stops at the log's end, so that no sum of forged lengths can wrap.
    pub fn span_room(&self, room: Option<usize>, span: Span) -> Option<usize>
        requires { rank span.to (shown self.now) ≤ length (shown self.now) }
        ensures { result ≡ room_tombs room (between span.from span.to (shown self.now)) }
    {
        let mut left = room;
        for i in span.from.number..span.to.number {
            let key = self.key_at(Spot { number: i });
            left = room_after(left, key.len(), 0);
        }
        left
    }
}
