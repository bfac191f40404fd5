// The places of rows in key order. A spot is one row's place, or the place past the last; what is inside it is for this crate alone. What
// compares places alone, `meet` and `stands`, holds of any log, table and mark: the methods of these names are the same of a view.
ghost use Rattle.std.specs.Prelude.{◌≡◌, ◌+◌, ◌≤◌, ◌<◌, leb, ltb, length};
ghost use Rattle.bitcask.specs.engine.Rows.{rows};
ghost use Rattle.bitcask.specs.engine.Views.{shown};
ghost use Rattle.bitcask.specs.engine.Spots.{rank, placed, place_by, from_rank, upto_rank};

use crate::answers::Bound;
use crate::engine::mark::Mark;
use crate::engine::view::View;
use crate::keydir::find as find_slot;
use crate::rank::{from_bound, upto_bound};

#[derive(Clone, Copy, Debug, PartialEq, Eq)]
pub struct Spot {
    pub(crate) number: usize,
}

// Whether the second of two places comes no later than the first, so that no row lies from the first up to it.
pub fn meet(log: &[u8], table: &[u32], mark: Mark, a: Spot, b: Spot) -> bool
    ensures { result ≡ leb (rank b (rows log.now table.now mark)) (rank a (rows log.now table.now mark)) }
{
    b.number <= a.number
}

// Whether a place has a row: the one past the last has none.
pub fn stands(log: &[u8], table: &[u32], mark: Mark, spot: Spot) -> bool
    ensures { result ≡ ltb (rank spot (rows log.now table.now mark)) (length (rows log.now table.now mark)) }
{
    spot.number < mark.count
}

impl View<'_, '_> {
    // Ok: the place of a key; Err: the place where it belongs.
    pub fn find(&self, key: &[u8]) -> Result<Spot, Spot>
        ensures { placed result (shown self.now) ≡ place_by key.now (shown self.now) }
    {
        match find_slot(self.log, self.table, self.mark.count, key) {
            Ok(i) => Ok(Spot { number: i }),
            Err(i) => Err(Spot { number: i }),
        }
    }

    // The first row that a lower bound admits.
    pub fn first(&self, bound: Bound, key: &[u8]) -> Spot
        ensures { rank result (shown self.now) ≡ from_rank bound key.now (shown self.now) }
    {
        Spot {
            number: from_bound(self.log, self.table, self.mark.count, bound, key),
        }
    }

    // The place past the last row that an upper bound admits. It is `first` over another rank: the two numbers that they wrap stay two.
    pub fn past(&self, bound: Bound, key: &[u8]) -> Spot
        ensures { rank result (shown self.now) ≡ upto_rank bound key.now (shown self.now) }
    {
        Spot {
            number: upto_bound(self.log, self.table, self.mark.count, bound, key),
        }
    }

    // `meet` of places in this view.
    pub fn meet(&self, a: Spot, b: Spot) -> bool
        ensures { result ≡ leb (rank b (shown self.now)) (rank a (shown self.now)) }
    {
        meet(self.log, self.table, self.mark, a, b)
    }

    // The place of the row behind a row.
    pub fn next(&self, spot: Spot) -> Spot
        requires { rank spot (shown self.now) < length (shown self.now) }
        ensures { rank result (shown self.now) ≡ rank spot (shown self.now) + 1 }
    {
        Spot {
            number: spot.number + 1,
        }
    }

    // The place of the row before a place that is not the first.
    pub(crate) fn previous(&self, spot: Spot) -> Spot
        requires { 0 < rank spot (shown self.now) }
        ensures { rank result (shown self.now) + 1 ≡ rank spot (shown self.now) }
    {
        Spot {
            number: spot.number - 1,
        }
    }

    // `stands` of a place in this view.
    pub fn stands(&self, spot: Spot) -> bool
        ensures { result ≡ ltb (rank spot (shown self.now)) (length (shown self.now)) }
    {
        stands(self.log, self.table, self.mark, spot)
    }
}
