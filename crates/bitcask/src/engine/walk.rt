// Walks from a place, one row at a time, as far as a bound admits keys: one search finds where to start, and no second one the end.
ghost use Rattle.std.specs.Prelude.{◌≡◌, ◌≤◌, length};
ghost use Rattle.bitcask.specs.read.Ranks.{admits_low};
ghost use Rattle.bitcask.specs.engine.Views.{shown};
ghost use Rattle.bitcask.specs.engine.Spots.{rank};
ghost use Rattle.bitcask.specs.engine.Walks.{near_rank, before_in, from_in};

use crate::answers::Bound;
use crate::engine::spot::Spot;
use crate::engine::view::View;
use keycode::compare;
use std::cmp::Ordering;

// Whether a bound admits a key, by the order in which the key comes to a lower bound, or an upper bound to the key.
fn admits(bound: Bound, o: Ordering) -> bool
    ensures { result ≡ admits_low bound o }
{
    match bound {
        Bound::Included => o.is_ge(),
        Bound::Excluded => o.is_gt(),
        Bound::Unbounded => true,
    }
}

impl View<'_, '_> {
    // The row before a place, where a lower bound admits it.
    pub fn row_before(&self, spot: Spot, lower: Bound, low: &[u8]) -> Option<Spot>
        requires { rank spot (shown self.now) ≤ length (shown self.now) }
        ensures { near_rank result (shown self.now) ≡ before_in lower low.now (shown self.now) (rank spot (shown self.now)) }
    {
        if spot.number == 0 {
            return None;
        }
        let before = self.previous(spot);
        if admits(lower, compare(self.key_at(before), low)) {
            return Some(before);
        }
        None
    }

    // The row at a place, where there is one and an upper bound admits it.
    pub fn row_from(&self, spot: Spot, upper: Bound, high: &[u8]) -> Option<Spot>
        ensures { near_rank result (shown self.now) ≡ from_in upper high.now (shown self.now) (rank spot (shown self.now)) }
    {
        if self.mark.count <= spot.number {
            return None;
        }
        if admits(upper, compare(high, self.key_at(spot))) {
            return Some(spot);
        }
        None
    }
}
