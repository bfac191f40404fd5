// A record's 128 bytes, laid into a lent buffer.
ghost use Rattle.std.specs.Prelude.{◌≡◌, ◌+◌, ◌≤◌, [], ◌∷◌, length};
ghost use Rattle.keycode.specs.Buffer.{put};
ghost use Rattle.tape.specs.format.Layout.{record_len, key_room, value_room, zeros, padded, laid, plainly};

use keycode::number::put_number;

pub const RECORD: usize = 128;

// Where the key and the value stand, and how many bytes each may have.
pub(crate) const KEY_AT: usize = 12;

pub(crate) const VALUE_AT: usize = 76;

pub(crate) const KEY_ROOM: usize = 64;

pub(crate) const VALUE_ROOM: usize = 52;

// Bytes, and zeros behind them.
fn put_padded(xs: &[u8], room: usize, out: &mut [u8], at: usize)
    requires { (length xs.now ≤ room) × (at + room ≤ length out.old) }
    ensures { out.new ≡ put out.old at (padded room xs.now) }
{
    out[at..at + xs.len()].copy_from_slice(xs);
    out[at + xs.len()..at + room].fill(0);
}

// Two bytes, the lengths of key and value, a number, key and value.
pub(crate) fn put_record(out: &mut [u8], at: usize, a: u8, b: u8, w: u64, key: &[u8], value: &[u8])
    requires { (at + record_len ≤ length out.old) × (length key.now ≤ key_room) × (length value.now ≤ value_room) }
    ensures { out.new ≡ put out.old at (laid a b w key.now value.now) }
{
    out[at..at + 4].copy_from_slice(&[a, b, key.len() as u8, value.len() as u8]);
    put_number(w, 8, out, at + 4);
    put_padded(key, KEY_ROOM, out, at + KEY_AT);
    put_padded(value, VALUE_ROOM, out, at + VALUE_AT);
}

// A number and a command, and nothing else.
pub(crate) fn put_plain(out: &mut [u8], at: usize, number: u8, command: u8)
    requires { at + record_len ≤ length out.old }
    ensures { out.new ≡ put out.old at (plainly number command) }
{
    put_record(out, at, number, command, 0, &[], &[]);
}
