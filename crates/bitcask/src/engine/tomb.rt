// A tombstone whose key stands in the log itself, so that a key of any length needs no buffer.
ghost use Rattle.std.specs.Prelude.{◌≡◌, ◌+◌, ◌≤◌, length, take, drop};
ghost use Rattle.keycode.specs.Limits.{max_log};
ghost use Rattle.keycode.specs.Buffer.{put};
ghost use Rattle.bitcask.specs.entry.Entry.{del as del_entry, bytes_of};

use keycode::number::put_number;

// The value length -1, as its 32 bits.
const GONE: u64 = 0xffff_ffff;

// A tombstone at `at` for the key at `from`.
pub(crate) fn tomb_of(log: &mut [u8], at: usize, from: usize, len: usize)
    requires { (from + len ≤ at) × (at + 8 + len ≤ length log.old) × (length log.old ≤ max_log) }
    ensures { log.new ≡ put log.old at (bytes_of (del_entry (take len (drop from log.old)))) }
{
    put_number(len as u64, 4, log, at);
    put_number(GONE, 4, log, at + 4);
    log.copy_within(from..from + len, at + 8);
}
