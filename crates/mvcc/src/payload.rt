// Payloads of the first edition, read and written: versions, sets of versions, stored values. A reader takes any bytes, and what it
// cannot read is an answer like the others; what makes a payload strict stands in its reader alone.
ghost use Rattle.std.specs.Prelude.{◌≡◌, [], ◌*◌, ◌/◌, ◌≤◌, length, take, drop};
ghost use Rattle.keycode.specs.Limits.{max_open};
ghost use Rattle.keycode.specs.Number.{num};
ghost use Rattle.keycode.specs.Buffer.{put};
ghost use Rattle.mvcc.specs.handle.Handles.{set_of, handle_of, with_all};
ghost use Rattle.mvcc.specs.payload.Payloads.{version_bytes, version_in, set_bytes, versions_of, set_in, value_in, set_for};

use crate::handle::Handle;
use keycode::Refusal;
use keycode::limits::MAX_OPEN;
use keycode::number::{get_number, put_number};
use keycode::parts::clip;

// A version, and the longest set that the store writes, in bytes.
pub(crate) const VERSION_BYTES: usize = 8;

pub(crate) const SET_BYTES: usize = VERSION_BYTES * MAX_OPEN;

// The first byte of a stored value, and the only one of a tombstone.
pub(crate) const VALUE_TAG: u8 = 1;

pub(crate) const GONE_TAG: u8 = 0;

// A stored value, whose bytes start behind the first `skip` of its payload, or a tombstone.
#[derive(Clone, Copy, Debug, PartialEq, Eq)]
pub enum Stored {
    Value { skip: usize },
    Gone,
}

// None where the payload is no version.
pub(crate) fn read_version(bytes: &[u8]) -> Option<u64>
    ensures { result ≡ version_in bytes.now }
{
    if bytes.len() != VERSION_BYTES {
        return None;
    }
    Some(get_number(bytes))
}

// None where the payload is neither a value nor a tombstone.
pub(crate) fn read_value(bytes: &[u8]) -> Option<Stored>
    ensures { result ≡ value_in bytes.now }
{
    match bytes {
        [VALUE_TAG, ..] => Some(Stored::Value { skip: 1 }),
        [GONE_TAG] => Some(Stored::Gone),
        _ => None,
    }
}

// A handle with the versions of a payload, as many as it has room for.
fn gathered(bytes: &[u8], version: u64, read_only: bool) -> Handle
    ensures { result ≡ with_all (handle_of version read_only []) (versions_of (length bytes.now / 8) bytes.now) }
{
    let mut handle = Handle::fresh(version, read_only);
    for version in bytes.chunks_exact(VERSION_BYTES) {
        handle = handle.with(get_number(version));
    }
    handle
}

// The handle with the set of a payload for its own: 12 where there is a byte left over or the set does not rise, 9 where it is over the limit.
pub(crate) fn read_set(bytes: &[u8], handle: Handle) -> Result<Handle, Refusal>
    ensures { result ≡ set_for handle (set_in bytes.now) }
{
    if bytes.len() % VERSION_BYTES != 0 {
        return Err(Refusal::BadStore);
    }
    if MAX_OPEN < bytes.len() / VERSION_BYTES {
        return Err(Refusal::TooManyOpen);
    }
    let read = gathered(bytes, handle.version, handle.read_only);
    if !read.sound() {
        return Err(Refusal::BadStore);
    }
    Ok(read)
}

// Lays a version at the front of a lent buffer.
pub(crate) fn put_version(version: u64, out: &mut [u8])
    requires { 8 ≤ length out.old }
    ensures { out.new ≡ put out.old 0 (version_bytes version) }
{
    put_number(version, VERSION_BYTES, out, 0);
}

// Lays versions at the front of a lent buffer, and returns the index after them, which is counted along for that reason.
fn put_versions(set: &[u64], out: &mut [u8]) -> usize
    requires { 8 * length set.now ≤ length out.old }
    ensures { (result ≡ length (set_bytes set.now)) × (out.new ≡ put out.old 0 (set_bytes set.now)) }
{
    let mut o = 0;
    for &version in set {
        put_number(version, VERSION_BYTES, out, o);
        o += VERSION_BYTES;
    }
    o
}

// Lays a handle's set at the front of a lent buffer, and returns how many bytes it has.
pub(crate) fn put_set(handle: Handle, out: &mut [u8]) -> usize
    requires { 8 * max_open ≤ length out.old }
    ensures { (result ≡ length (set_bytes (set_of handle))) × (out.new ≡ put out.old 0 (set_bytes (set_of handle))) }
{
    put_versions(handle.open(), out)
}
