// Answers in words.
ghost use Rattle.std.specs.Prelude.{◌≡◌};
ghost use Rattle.std.specs.Int.{w64, cast_unsigned};

use crate::digits::digits_of;
use keycode::Part;
use keycode::parts::clip;
use rows::{Denial, Field};

// An answer as it grows at the front of a lent buffer; what finds no room is dropped. By hand: each answer is written whole, and there is
// no heap to hold a `String`.
#[derive(Drop)]
pub(crate) struct Answer<'a> {
    out: &'a mut [u8],
    len: usize,
}

// Two's complement, spelt out: the calls under test cast, and what they do wrong must not be undone here.
fn pattern(number: i64) -> u64
    ensures { result ≡ cast_unsigned w64 number }
{
    if number < 0 {
        u64::MAX - (-1 - number) as u64
    } else {
        number as u64
    }
}

impl<'a> Answer<'a> {
    pub(crate) fn new(out: &'a mut [u8]) -> Self {
        Answer { out, len: 0 }
    }

    pub(crate) fn push(&mut self, byte: u8) {
        if let Some(place) = self.out.get_mut(self.len) {
            *place = byte;
            self.len += 1;
        }
    }

    // A few bytes: to have so few copied by the C library takes longer.
    fn put_short(&mut self, bytes: &[u8]) {
        for byte in bytes {
            self.push(*byte);
        }
    }

    // Bytes as they are.
    pub(crate) fn put(&mut self, bytes: &[u8]) {
        let free = self.out.get_mut(self.len..).unwrap_or(&mut []);
        let fits = bytes.len().min(free.len());
        free[..fits].copy_from_slice(&bytes[..fits]);
        self.len = self.len.saturating_add(fits);
    }

    // Two digits for each byte; the first alone where the buffer ends behind it.
    fn hex(&mut self, bytes: &[u8]) {
        let free = self.out.get_mut(self.len..).unwrap_or(&mut []);
        let most = free.len();
        let (pairs, last) = free.as_chunks_mut::<2>();
        let whole = pairs.len();
        for (pair, byte) in pairs.iter_mut().zip(bytes) {
            *pair = digits_of(*byte);
        }
        if let Some(place) = last.first_mut() {
            if let Some(byte) = bytes.get(whole) {
                [*place, _] = digits_of(*byte);
            }
        }
        self.len = self.len.saturating_add(most.min(2 * bytes.len()));
    }

    // Four digits.
    fn place(&mut self, number: usize) {
        let low = (number % 65536) as u16;
        self.hex(&low.to_be_bytes());
    }

    // A call's number, and the length or the count behind it: 0 beside a refusal.
    pub(crate) fn outcome(&mut self, outcome: Result<usize, Denial>) {
        match outcome {
            Ok(count) => {
                self.put_short(b": 0 ");
                self.place(count);
            }
            Err(denial) => {
                let number = denial as u8;
                self.put_short(&[b':', b' ', b'0' + number / 10, b'0' + number % 10]);
                self.put_short(b" 0000");
            }
        }
    }

    // A whole buffer behind a space, a dash for none.
    pub(crate) fn buffer(&mut self, buffer: &[u8]) {
        if buffer.is_empty() {
            self.put_short(b" -");
        } else {
            self.push(b' ');
            self.hex(buffer);
        }
    }

    // A number's or a boolean's bytes behind a space and the letter.
    fn bytes(&mut self, letter: &[u8], bytes: &[u8]) {
        self.put_short(letter);
        self.hex(bytes);
    }

    // A decoded string's place and length in the key.
    fn part(&mut self, letter: &[u8], part: Part) {
        self.put_short(letter);
        self.place(part.at);
        self.push(b'+');
        self.place(part.len);
    }

    // A field, behind a space.
    pub(crate) fn field(&mut self, field: Field) {
        match field {
            Field::Flag(flag) => self.bytes(b" b", &[u8::from(flag)]),
            Field::U64(number) => self.bytes(b" u", &number.to_be_bytes()),
            Field::I64(number) => self.bytes(b" i", &pattern(number).to_be_bytes()),
            Field::F64(pattern) => self.bytes(b" f", &pattern.to_be_bytes()),
            Field::Bytes(part) => self.part(b" y", part),
            Field::Text(part) => self.part(b" s", part),
        }
    }

    pub(crate) fn as_slice(&self) -> &[u8] {
        clip(self.out, 0, self.len)
    }
}
