// The six encodings of keys, and the bytes that a user prefix is searched as, each written to the front of a lent buffer: 4 for a user
// key over the limit, then 13 for a buffer that is too short.
ghost use Rattle.std.specs.Prelude.{◌≡◌, [], ◌∷◌, ◌+◌, ◌≤◌, ◌<◌, length};
ghost use Rattle.keycode.specs.Number.{be};
ghost use Rattle.keycode.specs.Strings.{escape_body};
ghost use Rattle.keycode.specs.key.Keys.{encode, next_version, txn_active, txn_active_snapshot, txn_write, version as version_key, unversioned};
ghost use Rattle.keycode.specs.Prefix.{searched};
ghost use Rattle.keycode.specs.encode.Promises.{Encodes, encode_answer};

use crate::limits::MAX_KEY;
use crate::number::put_number;
use crate::refusal::Refusal;
use crate::strings::{escape_body_into, escape_into, escaped_len};

// The length of an encoding that has `rest` bytes besides its escaped user key, or why it cannot be written into `room` bytes.
fn measured(key: &[u8], rest: usize, room: usize) -> Result<usize, Refusal>
    requires { rest < 16 }
    ensures { result ≡ encode_answer key.now (length (escape_body key.now) + rest) room }
{
    if MAX_KEY < key.len() {
        return Err(Refusal::KeyTooLong);
    }
    let n = escaped_len(key) + rest;
    if room < n {
        Err(Refusal::BadRequest)
    } else {
        Ok(n)
    }
}

// A key that is a tag and a version.
fn encode_number(tag: u8, version: u64, out: &mut [u8]) -> Result<usize, Refusal>
    ensures { Encodes [] (tag ∷ be 8 version) out.old result out.new }
{
    if out.len() < 9 {
        return Err(Refusal::BadRequest);
    }
    out[0] = tag;
    put_number(version, 8, out, 1);
    Ok(9)
}

pub fn encode_next_version(out: &mut [u8]) -> Result<usize, Refusal>
    ensures { Encodes [] (encode next_version) out.old result out.new }
{
    if out.is_empty() {
        return Err(Refusal::BadRequest);
    }
    out[0] = 0;
    Ok(1)
}

pub fn encode_txn_active(version: u64, out: &mut [u8]) -> Result<usize, Refusal>
    ensures { Encodes [] (encode (txn_active version)) out.old result out.new }
{
    encode_number(1, version, out)
}

pub fn encode_txn_active_snapshot(version: u64, out: &mut [u8]) -> Result<usize, Refusal>
    ensures { Encodes [] (encode (txn_active_snapshot version)) out.old result out.new }
{
    encode_number(2, version, out)
}

pub fn encode_txn_write(version: u64, key: &[u8], out: &mut [u8]) -> Result<usize, Refusal>
    ensures { Encodes key.now (encode (txn_write version key.now)) out.old result out.new }
{
    let n = measured(key, 11, out.len())?;
    out[0] = 3;
    put_number(version, 8, out, 1);
    escape_into(key, out, 9);
    Ok(n)
}

pub fn encode_version(key: &[u8], version: u64, out: &mut [u8]) -> Result<usize, Refusal>
    ensures { Encodes key.now (encode (version_key key.now version)) out.old result out.new }
{
    let n = measured(key, 11, out.len())?;
    out[0] = 4;
    let o = escape_into(key, out, 1);
    put_number(version, 8, out, o);
    Ok(n)
}

pub fn encode_unversioned(key: &[u8], out: &mut [u8]) -> Result<usize, Refusal>
    ensures { Encodes key.now (encode (unversioned key.now)) out.old result out.new }
{
    let n = measured(key, 3, out.len())?;
    out[0] = 5;
    escape_into(key, out, 1);
    Ok(n)
}

// What the Version keys of the user keys that begin with `prefix` begin with.
pub fn encode_version_prefix(prefix: &[u8], out: &mut [u8]) -> Result<usize, Refusal>
    ensures { Encodes prefix.now (searched prefix.now) out.old result out.new }
{
    let n = measured(prefix, 1, out.len())?;
    out[0] = 4;
    escape_body_into(prefix, out, 1);
    Ok(n)
}
