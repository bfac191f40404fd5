// Encoding a row: its fields one after the other at the front of a lent buffer. What can be refused is found before a byte is written.
ghost use Rattle.std.specs.Prelude.{◌≡◌, ◌+◌, ◌≤◌, ◌<◌, ◌^◌, length};
ghost use Rattle.keycode.specs.Buffer.{put};
ghost use Rattle.keycode.specs.Number.{be};
ghost use Rattle.keycode.specs.Strings.{escape};
ghost use Rattle.codecs.specs.Kinds.{flag_bytes};
ghost use Rattle.rows.specs.Promises.{within, bytes_check, text_check, field_check, fields_check, field_bytes, row_bytes, RowWrites};
ghost use Rattle.rows.specs.Inner.{room_of, InWords, PutField};

use crate::fields::Field;
use codecs::Denial;
use codecs::signs::{bias, flip};
use codecs::utf8::is_utf8;
use keycode::Part;
use keycode::number::put_number;
use keycode::parts::clip;
use keycode::strings::{escape_into, escaped_byte_len};

// A part of the texts lies within them.
fn is_within(p: Part, texts: &[u8]) -> bool
    ensures { result ≡ within texts.now p }
{
    p.at <= texts.len() && p.len <= texts.len() - p.at
}

// A part that reaches past the texts is a request that makes no sense: to cut it would write the key of another row.
fn check_bytes(p: Part, texts: &[u8]) -> Result<(), Denial>
    ensures { result ≡ bytes_check texts.now p }
{
    if is_within(p, texts) {
        Ok(())
    } else {
        Err(Denial::BadRequest)
    }
}

fn check_text(p: Part, texts: &[u8]) -> Result<(), Denial>
    ensures { result ≡ text_check texts.now p }
{
    check_bytes(p, texts)?;
    if is_utf8(clip(texts, p.at, p.len)) {
        Ok(())
    } else {
        Err(Denial::BadText)
    }
}

// What is at fault in a field; only strings can be.
fn check_field(field: Field, texts: &[u8]) -> Result<(), Denial>
    ensures { result ≡ field_check texts.now field }
{
    match field {
        Field::Flag(_) | Field::U64(_) | Field::I64(_) | Field::F64(_) => Ok(()),
        Field::Bytes(p) => check_bytes(p, texts),
        Field::Text(p) => check_text(p, texts),
    }
}

// What is at fault in the first field of a row that has a fault.
fn check_fields(fields: &[Field], texts: &[u8]) -> Result<(), Denial>
    ensures { result ≡ fields_check texts.now fields.now }
{
    for &field in fields {
        check_field(field, texts)?;
    }
    Ok(())
}

// A string's escaped bytes and its end taken of a room.
fn string_room(s: &[u8], room: usize) -> Option<usize>
    ensures { result ≡ room_of (length (escape s.now)) room }
{
    let mut left = room;
    for &b in s {
        left = left.checked_sub(escaped_byte_len(b))?;
    }
    left.checked_sub(2)
}

// A field's bytes taken of a room.
fn field_room(field: Field, texts: &[u8], left: usize) -> Option<usize>
    ensures { result ≡ room_of (length (field_bytes texts.now field)) left }
{
    match field {
        Field::Flag(_) => left.checked_sub(1),
        Field::U64(_) | Field::I64(_) | Field::F64(_) => left.checked_sub(8),
        Field::Bytes(p) | Field::Text(p) => string_room(clip(texts, p.at, p.len), left),
    }
}

// A row's bytes taken of a room.
fn row_room(fields: &[Field], texts: &[u8], room: usize) -> Option<usize>
    ensures { result ≡ room_of (length (row_bytes texts.now fields.now)) room }
{
    let mut left = room;
    for &field in fields {
        left = field_room(field, texts, left)?;
    }
    Some(left)
}

// Writes a boolean, and returns the index after it.
fn put_flag(b: bool, out: &mut [u8], at: usize) -> usize
    requires { at + length (flag_bytes b) ≤ length out.old }
    ensures { (result ≡ at + length (flag_bytes b)) × (out.new ≡ put out.old at (flag_bytes b)) }
{
    out[at] = u8::from(b);
    at + 1
}

// Writes eight bytes, and returns the index after them.
fn put_word(n: u64, out: &mut [u8], at: usize) -> usize
    requires { at + 8 ≤ length out.old }
    ensures { (result ≡ at + length (be 8 n)) × (out.new ≡ put out.old at (be 8 n)) }
{
    put_number(n, 8, out, at);
    at + 8
}

// Writes a field, and returns the index after it. That its number has 64 bits is known by its type, and told for the row's promise.
fn put_field(field: Field, texts: &[u8], out: &mut [u8], at: usize) -> usize
    requires { at + length (field_bytes texts.now field) ≤ length out.old }
    ensures { PutField texts.now field out.old at result out.new }
{
    match field {
        Field::Flag(b) => put_flag(b, out, at),
        Field::U64(v) => put_word(v, out, at),
        Field::I64(v) => put_word(bias(v), out, at),
        Field::F64(w) => put_word(flip(w), out, at),
        Field::Bytes(p) | Field::Text(p) => escape_into(clip(texts, p.at, p.len), out, at),
    }
}

// Writes a row to the front of out.
fn put_row(fields: &[Field], texts: &[u8], out: &mut [u8])
    requires { length (row_bytes texts.now fields.now) ≤ length out.old }
    ensures { (out.new ≡ put out.old 0 (row_bytes texts.now fields.now)) × InWords fields.now }
{
    let mut at = 0;
    for &field in fields {
        at = put_field(field, texts, out, at);
    }
}

// The row's bytes, written to the front of out; its strings are parts of texts.
pub fn encode_row(fields: &[Field], texts: &[u8], out: &mut [u8]) -> Result<usize, Denial>
    ensures { RowWrites fields.now texts.now out.old result out.new }
{
    if 8 < fields.len() {
        return Err(Denial::BadRequest);
    }
    check_fields(fields, texts)?;
    let room = out.len();
    let left = row_room(fields, texts, room).ok_or(Denial::BadRequest)?;
    put_row(fields, texts, out);
    Ok(room - left)
}
