// The words of a script: a number in decimal, or a string in quotes, in which \hh is one byte, #5 the number 5 in eight bytes, and *65
// behind the quotes goes on with what stands in them up to 65 bytes.
ghost use Rattle.std.specs.Prelude.{◌<◌, ◌≤◌, length};

use keycode::parts::clip;

// Above this a number takes no further digit.
const TOP: u64 = u64::MAX / 10;

// The number at the front of a word, and what stands behind it.
pub(crate) fn number(word: &[u8]) -> (u64, &[u8])
    ensures { length result.1.now ≤ length word.now }
{
    let mut value: u64 = 0;
    for (i, byte) in word.iter().enumerate() {
        if TOP < value || !byte.is_ascii_digit() {
            return (value, &word[i..]);
        }
        value = (value * 10).wrapping_add(u64::from(byte.wrapping_sub(b'0')));
    }
    (value, &[])
}

// A byte that is no digit counts as the letter that it would be.
fn nibble(byte: u8) -> u8
    ensures { result < 16 }
{
    let zero = if byte.is_ascii_digit() {
        b'0'
    } else {
        b'a' - 10
    };
    byte.wrapping_sub(zero) % 16
}

// 0 past the end.
fn byte_at(word: &[u8], i: usize) -> u8 {
    word.get(i).copied().unwrap_or(0)
}

// The byte of two hex digits.
fn hex(word: &[u8]) -> u8 {
    nibble(byte_at(word, 0)) * 16 + nibble(byte_at(word, 1))
}

// The bytes of a word, in a lent buffer; those that find no room are left out. By hand: a script runs without memory of its own, and a
// word that is cut short by *0 and goes on by *65 takes up what stands in the buffer.
#[derive(Drop)]
struct Spelling<'a> {
    out: &'a mut [u8],
    len: usize,
}

impl Spelling<'_> {
    fn push(&mut self, byte: u8) {
        if let Some(place) = self.out.get_mut(self.len) {
            *place = byte;
            self.len += 1;
        }
    }

    fn push_number(&mut self, value: u64) {
        let free = self.out.get_mut(self.len..).unwrap_or(&mut []);
        if let Some(place) = free.first_chunk_mut() {
            *place = value.to_be_bytes();
            self.len += 8;
        }
    }

    // What is there over and over, up to a total.
    fn repeat(&mut self, total: usize) {
        let period = self.len;
        let end = total.min(self.out.len());
        for i in period..end {
            self.out[i] = self.out[i - period];
        }
        self.len = end;
    }

    // What is left of the word.
    fn take<'w>(&mut self, first: u8, behind: &'w [u8]) -> &'w [u8]
        ensures { length result.now ≤ length behind.now }
    {
        match first {
            b'"' => behind,
            b'\\' => {
                self.push(hex(behind));
                behind.get(2..).unwrap_or(&[])
            }
            b'#' => {
                let (value, rest) = number(behind);
                self.push_number(value);
                rest
            }
            b'*' => {
                let (total, rest) = number(behind);
                self.repeat(total as usize);
                rest
            }
            byte => {
                self.push(byte);
                behind
            }
        }
    }
}

// The bytes of a word, at the front of a lent buffer.
pub(crate) fn spell<'a>(word: &[u8], out: &'a mut [u8]) -> &'a [u8] {
    let mut spelling = Spelling { out, len: 0 };
    let mut rest = word;
    while let Some((first, behind)) = rest.split_first() {
        rest = spelling.take(*first, behind);
    }
    let Spelling { out, len } = spelling;
    clip(out, 0, len)
}
