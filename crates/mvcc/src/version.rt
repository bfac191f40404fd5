// What records say to a handle, each for itself, and of a key's records the last that decides. get and the scans read them alike.
ghost use Rattle.std.specs.Prelude.{◌≡◌, ◌+◌, ◌^◌, ◌≤◌, ◌<◌, length};
ghost use Rattle.keycode.specs.Limits.{max_key};
ghost use Rattle.keycode.specs.key.Keys.{decode_why, forget};
ghost use Rattle.bitcask.specs.declared.answers.Bound.TheVariants.{Included};
ghost use Rattle.bitcask.specs.engine.Views.{shown};
ghost use Rattle.bitcask.specs.engine.Spots.{rank, row_at};
ghost use Rattle.bitcask.specs.engine.Walks.{down_from};
ghost use Rattle.mvcc.specs.version.Seen.{label_by, version_of, behind_part, string_part, row_says, seen_as, seen_row, record_row, last_rows};

use crate::handle::Handle;
use crate::payload::{Stored, read_value};
use bitcask::Bound;
use bitcask::engine::{Spot, View};
use keycode::{Key, Part, decode};

// What a record says. Hidden goes on to the record below; the others decide. Four cases of their own: none of them is an error of a call.
#[derive(Clone, Copy, Debug, PartialEq, Eq)]
pub enum Seen {
    Hidden,
    Gone,
    Bad,
    Value(Part),
}

// What a Version key says: where the escaped bytes of its user key stand in it, and its version.
#[derive(Clone, Copy, Debug, PartialEq, Eq)]
pub struct Label {
    pub string: Part,
    pub version: u64,
}

// A row of a Version key: the place of its user key's escaped bytes, and what it says.
#[derive(Clone, Copy, Debug, PartialEq, Eq)]
pub struct Record {
    pub key: Part,
    pub seen: Seen,
}

// None of a key that is no Version key.
fn label_of(key: &[u8]) -> Option<Label>
    ensures { result ≡ label_by (forget (decode_why max_key key.now)) }
{
    let Key::Version(string, version) = decode(key).ok()? else {
        return None;
    };
    Some(Label { string, version })
}

// The version of a Version key; None of other keys, which do not lie among them.
pub(crate) fn version_of(key: &[u8]) -> Option<u64>
    ensures { result ≡ version_of (forget (decode_why max_key key.now)) }
{
    Some(label_of(key)?.version)
}

// A part without its first `skip` bytes.
fn behind(p: Part, skip: usize) -> Part
    requires { (skip ≤ p.len) × (p.at + p.len < 2 ^ 63) }
    ensures { result ≡ behind_part p skip }
{
    Part {
        at: p.at + skip,
        len: p.len - skip,
    }
}

// The place of a Version key's string, which stands behind the tag.
fn string_part(p: Part, len: usize) -> Part
    requires { p.at < 2 ^ 63 }
    ensures { result ≡ string_part p len }
{
    Part { at: p.at + 1, len }
}

// What the payload at a spot says.
fn value_says(view: &View, spot: Spot) -> Seen
    requires { rank spot (shown view.now) < length (shown view.now) }
    ensures { result ≡ row_says (row_at spot (shown view.now)) }
{
    match read_value(view.value_at(spot)) {
        Some(Stored::Value { skip }) => { Seen::Value(behind(view.value_place(spot), skip)) }
        Some(Stored::Gone) => Seen::Gone,
        None => Seen::Bad,
    }
}

// What the record at a spot says, whose version is known: its payload is read where the handle sees that.
fn seen_as(view: &View, spot: Spot, handle: Handle, version: u64) -> Seen
    requires { rank spot (shown view.now) < length (shown view.now) }
    ensures { result ≡ seen_as handle (row_says (row_at spot (shown view.now))) version }
{
    if handle.sees(version) {
        value_says(view, spot)
    } else {
        Seen::Hidden
    }
}

// What the record at a spot says.
fn seen_at(view: &View, spot: Spot, handle: Handle) -> Seen
    requires { rank spot (shown view.now) < length (shown view.now) }
    ensures { result ≡ seen_row handle (row_at spot (shown view.now)) }
{
    match version_of(view.key_at(spot)) {
        None => Seen::Bad,
        Some(v) => seen_as(view, spot, handle, v),
    }
}

// The same with the place of its user key; None of a row whose key is no Version key.
pub(crate) fn record_at(view: &View, spot: Spot, handle: Handle) -> Option<Record>
    requires { rank spot (shown view.now) < length (shown view.now) }
    ensures { result ≡ record_row handle (row_at spot (shown view.now)) }
{
    let label = label_of(view.key_at(spot))?;
    let place = view.key_place(spot);
    let key = string_part(place, label.string.len);
    let seen = seen_as(view, spot, handle, label.version);
    Some(Record { key, seen })
}

// The rows before a place, downward to `low`: the first that decides.
pub(crate) fn seek(view: &View, end: Spot, low: &[u8], handle: Handle) -> Seen
    requires { rank end (shown view.now) ≤ length (shown view.now) }
    ensures { result ≡ last_rows handle (down_from Included low.now (shown view.now) (rank end (shown view.now))) }
{
    let mut at = end;
    while let Some(p) = view.row_before(at, Bound::Included, low) {
        let seen = seen_at(view, p, handle);
        let Seen::Hidden = seen else {
            return seen;
        };
        at = p;
    }
    Seen::Hidden
}
