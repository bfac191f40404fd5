// The upper end of the range of the byte strings that begin with a prefix; the lower end is the prefix. toydb's prefix_range.
ghost use Rattle.std.specs.Prelude.{◌≡◌};
ghost use Rattle.keycode.specs.Prefix.{prefix_end};

// The first `keep` bytes of the prefix and then the byte `last`.
#[derive(Clone, Copy, Debug, PartialEq, Eq)]
pub struct End {
    pub keep: usize,
    pub last: u8,
}

// The end, excluded; none where every byte of the prefix is ff.
pub fn prefix_end(prefix: &[u8]) -> Option<End>
    ensures { result ≡ prefix_end prefix.now }
{
    let keep = prefix.iter().rposition(|&b| b < 255)?;
    Some(End {
        keep,
        last: prefix[keep] + 1,
    })
}
