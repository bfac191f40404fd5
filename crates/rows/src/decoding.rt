// Decoding a row: the fields of a key one after the other, by kinds that are named beforehand.
ghost use Rattle.std.specs.Prelude.{◌≡◌, ◌≤◌, length, drop};
ghost use Rattle.codecs.specs.declared.fields.Kind.TheVariants.{Boolean, Binary, String};
ghost use Rattle.codecs.specs.Kinds.{dec, read_eight, read_bytes};
ghost use Rattle.rows.specs.Promises.{read_answer};
ghost use Rattle.rows.specs.Inner.{value_of, taken_as, strung_as};

use crate::fields::{Field, Row};
use codecs::signs::{unbias, unflip};
use codecs::utf8::{State, closed, feed};
use codecs::{Denial, Kind};
use keycode::Part;
use keycode::number::get_number;
use keycode::parts::clip;
use keycode::strings::step_at;

// A boolean, and the index behind it.
fn read_flag(key: &[u8], at: usize) -> Result<(Field, usize), Denial>
    ensures { result ≡ taken_as Boolean at (dec Boolean (drop at key.now)) }
{
    match key.get(at) {
        Some(0) => Ok((Field::Flag(false), at + 1)),
        Some(1) => Ok((Field::Flag(true), at + 1)),
        Some(_) => Err(Denial::BadFlag),
        None => Err(Denial::BadKey),
    }
}

// The number that eight bytes are.
fn read_word(key: &[u8], at: usize) -> Result<u64, Denial>
    ensures { result ≡ value_of (read_eight (drop at key.now)) }
{
    let bytes = clip(key, at, 8);
    if bytes.len() < 8 {
        return Err(Denial::BadKey);
    }
    Ok(get_number(bytes))
}

// The index of a string's closing 00 00, and whether the string is UTF-8; none where its escapes are at fault.
fn string_at(key: &[u8], at: usize) -> Option<(usize, bool)>
    requires { at ≤ length key.now }
    ensures { result ≡ strung_as at (read_bytes (drop at key.now)) }
{
    let mut state = State::Start;
    let mut i = at;
    while let Some((b, j)) = step_at(key, i).ok()? {
        state = feed(state, b);
        i = j;
    }
    Some((i, closed(state)))
}

// A byte string, and the index behind it.
fn read_binary(key: &[u8], at: usize) -> Result<(Field, usize), Denial>
    requires { at ≤ length key.now }
    ensures { result ≡ taken_as Binary at (dec Binary (drop at key.now)) }
{
    let (end, _) = string_at(key, at).ok_or(Denial::BadKey)?;
    Ok((Field::Bytes(Part { at, len: end - at }), end + 2))
}

// A string, and the index behind it; a fault of its escapes comes before one of its UTF-8.
fn read_string(key: &[u8], at: usize) -> Result<(Field, usize), Denial>
    requires { at ≤ length key.now }
    ensures { result ≡ taken_as String at (dec String (drop at key.now)) }
{
    let (end, good) = string_at(key, at).ok_or(Denial::BadKey)?;
    if !good {
        return Err(Denial::BadText);
    }
    Ok((Field::Text(Part { at, len: end - at }), end + 2))
}

// The field of a kind that starts at index at, and the index behind it.
fn read_field(kind: Kind, key: &[u8], at: usize) -> Result<(Field, usize), Denial>
    requires { at ≤ length key.now }
    ensures { result ≡ taken_as kind at (dec kind (drop at key.now)) }
{
    match kind {
        Kind::Boolean => read_flag(key, at),
        Kind::Unsigned => Ok((Field::U64(read_word(key, at)?), at + 8)),
        Kind::Signed => Ok((Field::I64(unbias(read_word(key, at)?)), at + 8)),
        Kind::Float => Ok((Field::F64(unflip(read_word(key, at)?)), at + 8)),
        Kind::Binary => read_binary(key, at),
        Kind::String => read_string(key, at),
    }
}

// The row that a key is; its strings are the parts of their escaped bytes.
pub fn decode_row(kinds: &[Kind], key: &[u8]) -> Result<Row, Denial>
    ensures { result ≡ read_answer kinds.now key.now }
{
    if 8 < kinds.len() {
        return Err(Denial::BadRequest);
    }
    let mut cells = [Field::Flag(false); 8];
    let mut at = 0;
    for (i, &kind) in kinds.iter().enumerate() {
        (cells[i], at) = read_field(kind, key, at)?;
    }
    if at < key.len() {
        return Err(Denial::BadKey);
    }
    Ok(Row {
        cells,
        len: kinds.len(),
    })
}
