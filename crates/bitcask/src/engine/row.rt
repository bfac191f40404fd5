// What stands at a spot: key and value as parts of the log, their places, and the entry's offset.
ghost use Rattle.std.specs.Prelude.{◌≡◌, ◌+◌, ◌^◌, ◌≤◌, ◌<◌, length};
ghost use Rattle.bitcask.specs.engine.Views.{shown};
ghost use Rattle.bitcask.specs.engine.Rows.{key_place, value_place, offset_of};
ghost use Rattle.bitcask.specs.engine.Spots.{rank, row_at};

use crate::engine::spot::Spot;
use crate::engine::view::View;
use crate::keydir::{key_of as slot_key, slot_at, value_of as slot_value};
use keycode::Part;

impl<'a> View<'a, '_> {
    pub fn key_at(&self, spot: Spot) -> &'a [u8]
        requires { rank spot (shown self.now) < length (shown self.now) }
        ensures { result.now ≡ (row_at spot (shown self.now)).key }
    {
        slot_key(self.log, slot_at(self.table, spot.number))
    }

    pub fn value_at(&self, spot: Spot) -> &'a [u8]
        requires { rank spot (shown self.now) < length (shown self.now) }
        ensures { result.now ≡ (row_at spot (shown self.now)).value }
    {
        slot_value(self.log, slot_at(self.table, spot.number))
    }

    // The place of a row's key.
    pub fn key_place(&self, spot: Spot) -> Part
        requires { rank spot (shown self.now) < length (shown self.now) }
        ensures { (result ≡ key_place (row_at spot (shown self.now))) × (result.at + result.len < 2 ^ 63) }
    {
        let s = slot_at(self.table, spot.number);
        let key = slot_key(self.log, s);
        Part {
            at: s.key_at(),
            len: key.len(),
        }
    }

    // The place of a row's value.
    pub fn value_place(&self, spot: Spot) -> Part
        requires { rank spot (shown self.now) < length (shown self.now) }
        ensures { (result ≡ value_place (row_at spot (shown self.now))) × (result.at + result.len < 2 ^ 63) }
    {
        let s = slot_at(self.table, spot.number);
        let key = slot_key(self.log, s);
        let value = slot_value(self.log, s);
        Part {
            at: s.key_at() + key.len(),
            len: value.len(),
        }
    }

    // The offset of a row's entry in the log.
    pub(crate) fn offset_at(&self, spot: Spot) -> usize
        requires { rank spot (shown self.now) < length (shown self.now) }
        ensures { result ≡ offset_of (row_at spot (shown self.now)) }
    {
        (slot_at(self.table, spot.number).place as usize).saturating_sub(1)
    }
}
