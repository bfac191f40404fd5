// Byte strings inside keys: each 00 becomes 00 ff, and 00 00 ends the string. Escaping, finding the end, and unescaping; a fault is
// told with its reason and the byte that decides.
ghost use Rattle.std.specs.Prelude.{◌≡◌, true, ◌+◌, ◌≤◌, ◌<◌, length, take, drop};
ghost use Rattle.keycode.specs.Limits.{max_key};
ghost use Rattle.keycode.specs.Buffer.{put};
ghost use Rattle.keycode.specs.Strings.{escape_byte, escape_body, escape, unescaped, well_escaped, step_at, scanned, plain_length};
ghost use Rattle.keycode.specs.Promises.{Unescapes};

use crate::limits::MAX_KEY;
use crate::refusal::Refusal;

// Why bytes are no key.
#[derive(Clone, Copy, Debug, PartialEq, Eq)]
pub enum Reason {
    TooFew,
    BadEscape,
    NoEnd,
    UnknownTag,
    LeftOver,
    OverLimit,
}

// A reason, and the first byte that decides: the key's length where bytes are missing.
#[derive(Clone, Copy, Debug, PartialEq, Eq)]
pub struct Fault {
    pub reason: Reason,
    pub at: usize,
}

// How many bytes a byte is, escaped.
pub fn escaped_byte_len(b: u8) -> usize
    ensures { result ≡ length (escape_byte b) }
{
    if b == 0 { 2 } else { 1 }
}

// How many bytes a string is, escaped with no end.
pub(crate) fn escaped_len(key: &[u8]) -> usize
    requires { length key.now ≤ max_key }
    ensures { result ≡ length (escape_body key.now) }
{
    key.iter().map(|&b| escaped_byte_len(b)).sum()
}

// Writes a byte, escaped, and returns the index after it.
fn put_escaped(b: u8, out: &mut [u8], at: usize) -> usize
    requires { at + length (escape_byte b) ≤ length out.old }
    ensures { (result ≡ at + length (escape_byte b)) × (out.new ≡ put out.old at (escape_byte b)) }
{
    out[at] = b;
    if b == 0 {
        out[at + 1] = 255;
        at + 2
    } else {
        at + 1
    }
}

// Writes a string, escaped with no end, and returns the index after it.
pub(crate) fn escape_body_into(key: &[u8], out: &mut [u8], at: usize) -> usize
    requires { at + length (escape_body key.now) ≤ length out.old }
    ensures { (result ≡ at + length (escape_body key.now)) × (out.new ≡ put out.old at (escape_body key.now)) }
{
    let mut o = at;
    for &b in key {
        o = put_escaped(b, out, o);
    }
    o
}

// Writes a string, escaped and ended, and returns the index after it.
pub fn escape_into(key: &[u8], out: &mut [u8], at: usize) -> usize
    requires { at + length (escape key.now) ≤ length out.old }
    ensures { (result ≡ at + length (escape key.now)) × (out.new ≡ put out.old at (escape key.now)) }
{
    let o = escape_body_into(key, out, at);
    out[o] = 0;
    out[o + 1] = 0;
    o + 2
}

// What stands at index i of escaped bytes: a byte of the string with the index after it, or nothing where the string ends.
// By hand: one match by slice patterns takes 1.4 times the instructions of a decode, and 1.5 of an unescape.
pub fn step_at(s: &[u8], i: usize) -> Result<Option<(u8, usize)>, Fault>
    requires { i ≤ length s.now }
    ensures { result ≡ step_at i (drop i s.now) }
{
    if s.len() <= i {
        return Err(Fault {
            reason: Reason::NoEnd,
            at: i,
        });
    }
    let x = s[i];
    if x != 0 {
        return Ok(Some((x, i + 1)));
    }
    let j = i + 1;
    if s.len() <= j {
        return Err(Fault {
            reason: Reason::NoEnd,
            at: j,
        });
    }
    let y = s[j];
    if y == 0 {
        return Ok(None);
    }
    if y == 255 {
        Ok(Some((0, i + 2)))
    } else {
        Err(Fault {
            reason: Reason::BadEscape,
            at: j,
        })
    }
}

// Where the string whose escaped bytes start at index at ends, if it is within the limit.
pub(crate) fn scan(s: &[u8], at: usize) -> Result<usize, Fault>
    requires { at ≤ length s.now }
    ensures { result ≡ scanned max_key at (drop at s.now) }
{
    let mut left = MAX_KEY;
    let mut i = at;
    while let Some((_, j)) = step_at(s, i)? {
        if left == 0 {
            return Err(Fault {
                reason: Reason::OverLimit,
                at: j - 1,
            });
        }
        left -= 1;
        i = j;
    }
    Ok(i)
}

// How many bytes the string of escaped bytes with no end has; 12 where they are escaped badly or it is over the limit.
fn plain_len(s: &[u8]) -> Result<usize, Refusal>
    ensures { result ≡ plain_length s.now }
{
    let mut n = 0;
    let mut i = 0;
    while i < s.len() {
        let Ok(Some((_, j))) = step_at(s, i) else {
            return Err(Refusal::BadStore);
        };
        n += 1;
        i = j;
    }
    if MAX_KEY < n {
        Err(Refusal::BadStore)
    } else {
        Ok(n)
    }
}

// Writes the string of escaped bytes with no end to the front of out.
fn unescape_into(s: &[u8], out: &mut [u8])
    requires { (well_escaped s.now ≡ true) × (length (unescaped s.now) ≤ length out.old) }
    ensures { out.new ≡ put out.old 0 (unescaped s.now) }
{
    let mut o = 0;
    let mut i = 0;
    while let Ok(Some((b, j))) = step_at(s, i) {
        out[o] = b;
        o += 1;
        i = j;
    }
}

// The string of escaped bytes with no end, written to the front of out.
pub fn unescape(escaped: &[u8], out: &mut [u8]) -> Result<usize, Refusal>
    ensures { Unescapes escaped.now out.old result out.new }
{
    let n = plain_len(escaped)?;
    if out.len() < n {
        return Err(Refusal::BadRequest);
    }
    unescape_into(escaped, out);
    Ok(n)
}
