// Entries laid into a lent log. A value comes in two parts, so that a tag byte and a caller's bytes need no buffer of their own.
ghost use Rattle.std.specs.Prelude.{◌≡◌, ◌++◌, ◌+◌, ◌≤◌, length};
ghost use Rattle.keycode.specs.Limits.{max_log};
ghost use Rattle.keycode.specs.Number.{be};
ghost use Rattle.keycode.specs.Buffer.{put};
ghost use Rattle.bitcask.specs.entry.Entry.{set as set_entry, del as del_entry, bytes_of, size_of};

use keycode::number::put_number;

// The value length -1, as its 32 bits: no entry with a value states it.
pub(crate) const GONE: u32 = 0xffff_ffff;

// Lays the bytes src into out from index at on, and returns the index after them.
pub fn copy_into(src: &[u8], out: &mut [u8], at: usize) -> usize
    requires { at + length src.now ≤ length out.old }
    ensures { (result ≡ at + length src.now) × (out.new ≡ put out.old at src.now) }
{
    let end = at + src.len();
    out[at..end].copy_from_slice(src);
    end
}

// Lays the two lengths and the key, and returns the index after them.
fn put_head(log: &mut [u8], at: usize, key: &[u8], bits: u32) -> usize
    requires { (at + 8 + length key.now ≤ length log.old) × (length log.old ≤ max_log) }
    ensures { (result ≡ at + 8 + length key.now) × (log.new ≡ put log.old at (be 4 (length key.now) ++ be 4 bits ++ key.now)) }
{
    put_number(key.len() as u64, 4, log, at);
    put_number(u64::from(bits), 4, log, at + 4);
    copy_into(key, log, at + 8)
}

// An entry whose value is head and then body; returns the index after it.
pub(crate) fn put_set(log: &mut [u8], at: usize, key: &[u8], head: &[u8], body: &[u8]) -> usize
    requires { (at + 8 + length key.now + length head.now + length body.now ≤ length log.old) × (length log.old ≤ max_log) }
    ensures { (result ≡ at + size_of (set_entry key.now (head.now ++ body.now))) × (log.new ≡ put log.old at (bytes_of (set_entry key.now (head.now ++ body.now)))) }
{
    let vlen = head.len() + body.len();
    let v = put_head(log, at, key, vlen as u32);
    let b = copy_into(head, log, v);
    copy_into(body, log, b)
}

// A tombstone; returns the index after it.
pub(crate) fn put_del(log: &mut [u8], at: usize, key: &[u8]) -> usize
    requires { (at + 8 + length key.now ≤ length log.old) × (length log.old ≤ max_log) }
    ensures { (result ≡ at + size_of (del_entry key.now)) × (log.new ≡ put log.old at (bytes_of (del_entry key.now))) }
{
    put_head(log, at, key, GONE)
}
