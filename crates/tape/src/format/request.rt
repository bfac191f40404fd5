// A record as a request.
ghost use Rattle.std.specs.Prelude.{◌≡◌, ◌≤◌, length};
ghost use Rattle.tape.specs.format.Layout.{record_len, key_room, value_room};
ghost use Rattle.tape.specs.format.Requests.{fields_of, between as between_by, slot_most, key_most, value_most, version_most, modest as modest_by, all_zero, cleared as cleared_by, proper as proper_by};

use crate::format::layout::{KEY_AT, KEY_ROOM, VALUE_AT, VALUE_ROOM};
use keycode::number::get_number;

// A request as its record has it. By hand: the command stays the tape's number, since a bad record is answered with whatever number it
// had, and the definitions of what each command does are by that number.
#[derive(Clone, Copy, Debug, PartialEq, Eq)]
pub struct Request {
    pub command: u8,
    pub slot: usize,
    pub klen: usize,
    pub vlen: usize,
    pub version: u64,
}

pub(crate) fn fields(bytes: &[u8]) -> Request
    requires { length bytes.now ≡ record_len }
    ensures { result ≡ fields_of bytes.now }
{
    Request {
        command: bytes[0],
        slot: usize::from(bytes[1]),
        klen: usize::from(bytes[2]),
        vlen: usize::from(bytes[3]),
        version: get_number(&bytes[4..12]),
    }
}

// Whether a command's number lies between two others, both included.
fn between(low: u8, high: u8, command: u8) -> bool
    ensures { result ≡ between_by low high command }
{
    low <= command && command <= high
}

// The last slot that a command may name.
fn slot_most(command: u8) -> usize
    ensures { result ≡ slot_most command }
{
    if command <= 9 { 15 } else { 0 }
}

// How long a command's key may be.
fn key_most(command: u8) -> usize
    ensures { result ≡ key_most command }
{
    if between(4, 7, command) { KEY_ROOM } else { 0 }
}

// How long a command's value may be.
fn value_most(command: u8) -> usize
    ensures { result ≡ value_most command }
{
    if command == 5 { VALUE_ROOM } else { 0 }
}

// How large a command's version may be.
fn version_most(command: u8) -> u64
    ensures { result ≡ version_most command }
{
    if command == 3 { u64::MAX } else { 0 }
}

// A known command, and each field as large as that command lets it be. By hand: of one `&&` over the five tests the proof was left open at
// its last two, where what the tests before them answered is known by cases only.
fn modest(q: Request) -> bool
    ensures { result ≡ modest_by q }
{
    let c = q.command;
    if !between(1, 11, c) {
        return false;
    }
    if slot_most(c) < q.slot {
        return false;
    }
    if key_most(c) < q.klen {
        return false;
    }
    if value_most(c) < q.vlen {
        return false;
    }
    q.version <= version_most(c)
}

fn all_zero(s: &[u8]) -> bool
    ensures { result ≡ all_zero s.now }
{
    s.iter().all(|byte| *byte == 0)
}

// The bytes behind the key and behind the value.
fn cleared(bytes: &[u8], klen: usize, vlen: usize) -> bool
    requires { (length bytes.now ≡ record_len) × (klen ≤ key_room) × (vlen ≤ value_room) }
    ensures { result ≡ cleared_by bytes.now klen vlen }
{
    all_zero(&bytes[KEY_AT + klen..VALUE_AT]) && all_zero(&bytes[VALUE_AT + vlen..])
}

// Whether it is laid out as a request that can be carried out.
pub(crate) fn proper(bytes: &[u8]) -> bool
    requires { length bytes.now ≡ record_len }
    ensures { result ≡ proper_by bytes.now }
{
    let q = fields(bytes);
    modest(q) && cleared(bytes, q.klen, q.vlen)
}
