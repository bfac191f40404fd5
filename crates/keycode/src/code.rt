// Encoded keys by value, so that a call can hold several at once. A caller tests a user key's length, number 4, before it makes one.
ghost use Rattle.std.specs.Prelude.{◌≡◌, ◌≤◌, length, take, replicate};
ghost use Rattle.std.specs.Fn.{FnOnceReturnsAtMut};
ghost use Rattle.keycode.specs.Limits.{max_key};
ghost use Rattle.keycode.specs.key.Keys.{encode, next_version, txn_active, txn_active_snapshot, txn_write, version as version_key, unversioned};
ghost use Rattle.keycode.specs.Prefix.{searched};
ghost use Rattle.keycode.specs.code.Codes.{Codes, code_of, key_bytes};

use crate::encode::{
    encode_next_version, encode_txn_active, encode_txn_active_snapshot, encode_txn_write,
    encode_unversioned, encode_version, encode_version_prefix,
};
use crate::limits::KEY_BYTES;
use crate::parts::clip;
use crate::refusal::Refusal;

// The first `len` bytes are the key's. No `==`: codes of one key may differ behind it, and their slices are what is compared.
#[derive(Clone, Copy)]
pub struct Code {
    pub len: usize,
    pub bytes: [u8; KEY_BYTES],
}

impl Code {
    // The key's bytes: every one of the buffer where `len` is past its end.
    pub fn as_slice(&self) -> &[u8]
        ensures { result.now ≡ take self.now.len self.now.bytes }
    {
        clip(&self.bytes, 0, self.len)
    }
}

// The code of what an encoder answers and leaves; none of those below is refused.
fn coded<F: FnOnce(&mut [u8]) -> Result<usize, Refusal>>(encoder: F) -> Code
    requires { F.IsAlwaysCallable encoder }
    ensures { (answer : _) × (bytes : _) × FnOnceReturnsAtMut F.FnOnce encoder (replicate key_bytes 0) answer bytes × (result ≡ code_of answer bytes) }
{
    let mut bytes = [0u8; KEY_BYTES];
    let len = encoder(&mut bytes).unwrap_or(0);
    Code { len, bytes }
}

pub fn next_version_code() -> Code
    ensures { Codes result (encode next_version) }
{
    coded(|out| encode_next_version(out))
}

pub fn active_code(version: u64) -> Code
    ensures { Codes result (encode (txn_active version)) }
{
    coded(|out| encode_txn_active(version, out))
}

pub fn snapshot_code(version: u64) -> Code
    ensures { Codes result (encode (txn_active_snapshot version)) }
{
    coded(|out| encode_txn_active_snapshot(version, out))
}

pub fn write_code(version: u64, key: &[u8]) -> Code
    requires { length key.now ≤ max_key }
    ensures { Codes result (encode (txn_write version key.now)) }
{
    coded(|out| encode_txn_write(version, key, out))
}

pub fn version_code(key: &[u8], version: u64) -> Code
    requires { length key.now ≤ max_key }
    ensures { Codes result (encode (version_key key.now version)) }
{
    coded(|out| encode_version(key, version, out))
}

pub fn unversioned_code(key: &[u8]) -> Code
    requires { length key.now ≤ max_key }
    ensures { Codes result (encode (unversioned key.now)) }
{
    coded(|out| encode_unversioned(key, out))
}

// What the Version keys of the user keys that begin with `prefix` begin with.
pub fn prefix_code(prefix: &[u8]) -> Code
    requires { length prefix.now ≤ max_key }
    ensures { Codes result (searched prefix.now) }
{
    coded(|out| encode_version_prefix(prefix, out))
}
