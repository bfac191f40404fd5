// Parts of lent bytes, by place and length.
ghost use Rattle.std.specs.Prelude.{◌≡◌, take, drop};

// A part of lent bytes: where it starts, and how many bytes it has. A string in a key is the part of its escaped bytes, the closing
// 00 00 not counted.
#[derive(Clone, Copy, Debug, PartialEq, Eq)]
pub struct Part {
    pub at: usize,
    pub len: usize,
}

// The `len` bytes from index at on, cut where s ends.
pub fn clip(s: &[u8], at: usize, len: usize) -> &[u8]
    ensures { result.now ≡ take len (drop at s.now) }
{
    let n = s.len();
    if n <= at {
        return &s[n..];
    }
    if n - at <= len {
        return &s[at..];
    }
    let end = at + len;
    &s[at..end]
}
