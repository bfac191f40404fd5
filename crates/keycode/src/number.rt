// Numbers as big-endian bytes. One writer and one reader serve every width: the eight bytes of a version, the four of an entry's lengths.
ghost use Rattle.std.specs.Prelude.{◌≡◌, ◌+◌, ◌≤◌, ◌<◌, ◌^◌, length, take, drop};
ghost use Rattle.keycode.specs.Number.{be, num};
ghost use Rattle.keycode.specs.Buffer.{put};

// Writes v as `width` bytes, most significant first, from index at on. By hand: `to_be_bytes` gives eight, and a width may be any.
pub fn put_number(v: u64, width: usize, out: &mut [u8], at: usize)
    requires { (v < 256 ^ width) × (at + width ≤ length out.old) }
    ensures { out.new ≡ put out.old at (be width v) }
{
    let mut rest = v;
    for i in (0..width).rev() {
        out[at + i] = (rest % 256) as u8;
        rest /= 256;
    }
}

// The number that bytes are, most significant first.
pub fn get_number(s: &[u8]) -> u64
    requires { length s.now ≤ 8 }
    ensures { result ≡ num s.now }
{
    let mut n = 0;
    for &b in s {
        n = n * 256 + u64::from(b);
    }
    n
}
