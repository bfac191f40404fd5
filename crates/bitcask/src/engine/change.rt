// What is appended. A set is laid at the place that one search found, which the caller judged by; so that no key is searched for twice.
ghost use Rattle.std.specs.Prelude.{◌≡◌, ◌++◌, ◌+◌, ◌-◌, ◌≤◌, length};
ghost use Rattle.bitcask.specs.keydir.Place.{Among};
ghost use Rattle.bitcask.specs.entry.Entry.{del as del_entry};
ghost use Rattle.bitcask.specs.change.Append.{wants as wants_by, appended};
ghost use Rattle.bitcask.specs.engine.Sets.{spot_place, set_at, up_by};
ghost use Rattle.bitcask.specs.engine.Stores.{state_of, SameLent};

use crate::append::{Mark as End, append_del as append_tomb};
use crate::engine::mark::Mark;
use crate::engine::spot::Spot;
use crate::engine::store::Store;
use crate::entry::put_set;
use crate::keydir::{Slot, enter};
use crate::request::Used;

// A place that was found, as the table knows it.
fn place_of(found: Result<Spot, Spot>) -> Result<usize, usize>
    ensures { result ≡ spot_place found }
{
    match found {
        Ok(p) => Ok(p.number),
        Err(p) => Err(p.number),
    }
}

// A used length moved on, with all else that it carries.
pub(crate) fn moved(used: Used, len: usize) -> Used
    ensures { result ≡ record { len = len } }
{
    let mut next = used;
    next.len = len;
    next
}

// How many rows a set of a key adds.
pub fn wants(found: Result<Spot, Spot>) -> usize
    ensures { result ≡ wants_by (spot_place found) }
{
    match found {
        Ok(_) => 0,
        Err(_) => 1,
    }
}

impl Store<'_> {
    // A set whose value is head and then body, at the place that was found for its key.
    pub fn append_set(&mut self, found: Result<Spot, Spot>, key: &[u8], head: &[u8], body: &[u8])
        requires { (self.old.mark.used.len + 8 + length key.now + length head.now + length body.now ≤ length self.old.log.now) × (Among self.old.mark.count (spot_place found)) }
        ensures lent { SameLent self.old self.new }
        ensures state { state_of self.new ≡ set_at (state_of self.old) (spot_place found) key.now (head.now ++ body.now) }
    {
        let at = self.mark.used.len;
        let klen = key.len();
        let vlen = head.len() + body.len();
        let end = put_set(self.log, at, key, head, body);
        let n = enter(
            self.table,
            self.mark.count,
            place_of(found),
            Slot {
                place: (at + 1) as u32,
                klen: klen as u32,
                vlen: vlen as u32,
            },
        );
        self.mark = Mark {
            used: moved(self.mark.used, end),
            count: n,
        };
    }

    // A tombstone of a key, which is found once.
    pub fn append_del(&mut self, key: &[u8])
        requires { self.old.mark.used.len + 8 + length key.now ≤ length self.old.log.now }
        ensures lent { SameLent self.old self.new }
        ensures state { state_of self.new ≡ appended (state_of self.old) (del_entry key.now) }
    {
        let before = End {
            used: self.mark.used.len,
            count: self.mark.count,
        };
        let end = append_tomb(self.log, self.table, before, key);
        self.mark = Mark {
            used: moved(self.mark.used, end.used),
            count: end.count,
        };
    }
}

// The place of a key when a lesser one was set: as far on as rows were added.
pub fn behind(before: Mark, after: Mark, found: Result<Spot, Spot>) -> Result<Spot, Spot>
    requires { (before.count ≤ after.count) × (Among before.count (spot_place found)) }
    ensures { spot_place result ≡ up_by (after.count - before.count) (spot_place found) }
{
    let more = after.count - before.count;
    match found {
        Ok(p) => Ok(Spot {
            number: p.number + more,
        }),
        Err(p) => Err(Spot {
            number: p.number + more,
        }),
    }
}
