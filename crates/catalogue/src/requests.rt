// A line of standard input, and what it asks of the two calls.
use crate::answers::Answer;
use crate::digits::{decimal, unhex};
use crate::fields::{Fields, Kinds, Texts};
use crate::lines::Words;
use keycode::parts::clip;
use rows::{decode_row, encode_row};

// The longest buffer into which is encoded.
const ROOM: usize = 4096;

// What a buffer holds before a call, so that what the call leaves can be told.
const MARK: u8 = 0xaa;

// The most bytes of a request's strings or its key: a line spells each by two digits.
const TEXTS: usize = 4096;

// Room for a request, lent to each in turn: a run takes none from a heap, so none can be missing.
#[derive(Drop)]
pub(crate) struct Desk {
    texts: [u8; TEXTS],
    buffer: [u8; ROOM],
}

fn encode(
    mut words: Words<'_>,
    texts: &mut [u8],
    buffer: &mut [u8; ROOM],
    answer: &mut Answer<'_>,
) {
    let room = decimal(words.next().unwrap_or(b""));
    let mut texts = Texts::new(texts);
    let row = Fields::of(words, &mut texts);
    let buffer = &mut buffer[..room.min(ROOM)];
    buffer.fill(MARK);
    answer.outcome(encode_row(row.as_slice(), texts.as_slice(), buffer));
    answer.buffer(buffer);
}

fn decode(mut words: Words<'_>, texts: &mut [u8], answer: &mut Answer<'_>) {
    let digits = words.next().unwrap_or(b"");
    let len = if digits.starts_with(b"-") {
        0
    } else {
        unhex(digits, texts)
    };
    match decode_row(Kinds::of(words).as_slice(), clip(texts, 0, len)) {
        Ok(row) => {
            answer.outcome(Ok(row.len));
            for field in row.fields() {
                answer.field(*field);
            }
        }
        Err(denial) => answer.outcome(Err(denial)),
    }
}

impl Desk {
    pub(crate) fn new() -> Self {
        Desk {
            texts: [0; TEXTS],
            buffer: [0; ROOM],
        }
    }

    // A line with its answer behind it. Its first letter says what it asks; a line that asks nothing has no answer.
    pub(crate) fn answer_line(&mut self, line: &[u8], answer: &mut Answer<'_>) {
        answer.put(line);
        let mut words = Words(line);
        words.next();
        match line {
            [b'e', ..] => encode(words, &mut self.texts, &mut self.buffer, answer),
            [b'd', ..] => decode(words, &mut self.texts, answer),
            _ => {}
        }
        answer.push(b'\n');
    }
}
