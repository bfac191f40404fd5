// The exported functions on keys. Each makes the call of crate keycode and packs its answer; decoding lays the key's fields into
// the lent buffer.
ghost use Rattle.std.specs.Prelude.{◌≡◌, ◌≤◌, length};
ghost use Rattle.keycode.specs.Buffer.{put};
ghost use Rattle.keycode.specs.key.Keys.{next_version, txn_active, txn_active_snapshot, txn_write, version as version_key, unversioned};
ghost use Rattle.host.specs.Promises.{Encodes, Decodes, DecodesInto, Unescapes, field_count, split, split_bytes};

use crate::answers::told;
use keycode::number::put_number;
use keycode::{
    Key, Part, Refusal, decode, encode_next_version, encode_txn_active, encode_txn_active_snapshot,
    encode_txn_write, encode_unversioned, encode_version, unescape,
};

#[unsafe(no_mangle)]
pub extern "C" fn tjaldrum_encode_next_version(out: &mut [u8]) -> u64
    ensures { Encodes next_version out.old result out.new }
{
    told(encode_next_version(out))
}

#[unsafe(no_mangle)]
pub extern "C" fn tjaldrum_encode_txn_active(version: u64, out: &mut [u8]) -> u64
    ensures { Encodes (txn_active version) out.old result out.new }
{
    told(encode_txn_active(version, out))
}

#[unsafe(no_mangle)]
pub extern "C" fn tjaldrum_encode_txn_active_snapshot(version: u64, out: &mut [u8]) -> u64
    ensures { Encodes (txn_active_snapshot version) out.old result out.new }
{
    told(encode_txn_active_snapshot(version, out))
}

#[unsafe(no_mangle)]
pub extern "C" fn tjaldrum_encode_txn_write(version: u64, key: &[u8], out: &mut [u8]) -> u64
    ensures { Encodes (txn_write version key.now) out.old result out.new }
{
    told(encode_txn_write(version, key, out))
}

#[unsafe(no_mangle)]
pub extern "C" fn tjaldrum_encode_version(key: &[u8], version: u64, out: &mut [u8]) -> u64
    ensures { Encodes (version_key key.now version) out.old result out.new }
{
    told(encode_version(key, version, out))
}

#[unsafe(no_mangle)]
pub extern "C" fn tjaldrum_encode_unversioned(key: &[u8], out: &mut [u8]) -> u64
    ensures { Encodes (unversioned key.now) out.old result out.new }
{
    told(encode_unversioned(key, out))
}

#[unsafe(no_mangle)]
pub extern "C" fn tjaldrum_unescape(escaped: &[u8], out: &mut [u8]) -> u64
    ensures { Unescapes escaped.now out.old result out.new }
{
    told(unescape(escaped, out))
}

// How many bytes the fields of a decoded key take.
const FIELDS: usize = 25;

// What stands in place of the string of a kind that has none.
const NO_PART: Part = Part { at: 0, len: 0 };

// A decoded key as four numbers. A field that a kind does not have is 0.
#[derive(Clone, Copy, Debug, PartialEq, Eq)]
struct Split {
    kind: u8,
    version: u64,
    at: usize,
    len: usize,
}

impl From<Key> for Split {
    ghost from_gives = { λ key s. s ≡ split key };

    fn from(key: Key) -> Split {
        let (kind, version, part) = match key {
            Key::NextVersion => (0, 0, NO_PART),
            Key::TxnActive(v) => (1, v, NO_PART),
            Key::TxnActiveSnapshot(v) => (2, v, NO_PART),
            Key::TxnWrite(v, p) => (3, v, p),
            Key::Version(p, v) => (4, v, p),
            Key::Unversioned(p) => (5, 0, p),
        };
        Split {
            kind,
            version,
            at: part.at,
            len: part.len,
        }
    }
}

impl Split {
    // The fields to the front of out.
    fn lay_out(self, out: &mut [u8])
        requires { field_count ≤ length out.old }
        ensures { out.new ≡ put out.old 0 (split_bytes self) }
    {
        out[0] = self.kind;
        put_number(self.version, 8, out, 1);
        put_number(self.at as u64, 8, out, 9);
        put_number(self.len as u64, 8, out, 17);
    }
}

// How many bytes were laid; a refusal leaves the buffer.
fn decode_into(bytes: &[u8], out: &mut [u8]) -> Result<usize, Refusal>
    ensures { DecodesInto bytes.now out.old result out.new }
{
    if out.len() < FIELDS {
        return Err(Refusal::BadRequest);
    }
    Split::from(decode(bytes)?).lay_out(out);
    Ok(FIELDS)
}

#[unsafe(no_mangle)]
pub extern "C" fn tjaldrum_decode(bytes: &[u8], out: &mut [u8]) -> u64
    ensures { Decodes bytes.now out.old result out.new }
{
    told(decode_into(bytes, out))
}
