// Fields and kinds of the words of a request.
ghost use Rattle.std.specs.Prelude.{◌≡◌};
ghost use Rattle.std.specs.Int.{w64, cast_signed};

use crate::digits::{number, unhex};
use crate::lines::Words;
use keycode::Part;
use keycode::parts::clip;
use rows::{Field, Kind};

// How many words are looked at: one more than a row may have fields, since a row of more is refused by its count alone.
const MOST: usize = 9;

// The strings of a request one behind the other, at the front of a lent buffer; what finds no room is left out.
#[derive(Drop)]
pub(crate) struct Texts<'a> {
    bytes: &'a mut [u8],
    len: usize,
}

// The fields of a request. By hand, as `Kinds`: there is no heap to hold a `Vec`.
#[derive(Clone, Copy)]
pub(crate) struct Fields {
    cells: [Field; MOST],
    len: usize,
}

#[derive(Clone, Copy)]
pub(crate) struct Kinds {
    cells: [Kind; MOST],
    len: usize,
}

// Two's complement, spelt out: the calls under test cast, and what they do wrong must not be undone here.
fn signed(number: u64) -> i64
    ensures { result ≡ cast_signed w64 number }
{
    if number < 1 << 63 {
        number as i64
    } else {
        -1 - (u64::MAX - number) as i64
    }
}

// One byte more than is spelt.
fn longer(part: Part) -> Part {
    Part {
        at: part.at,
        len: part.len.saturating_add(1),
    }
}

impl<'a> Texts<'a> {
    pub(crate) fn new(bytes: &'a mut [u8]) -> Self {
        Texts { bytes, len: 0 }
    }

    pub(crate) fn as_slice(&self) -> &[u8] {
        clip(self.bytes, 0, self.len)
    }

    // The part that a word's digits make, behind those of other words.
    fn part(&mut self, word: &[u8]) -> Part {
        let at = self.len;
        let len = match self.bytes.get_mut(at..) {
            Some(free) => unhex(word, free),
            None => 0,
        };
        self.len = at.saturating_add(len);
        Part { at, len }
    }

    // By hand: a letter is how a line spells a kind, and no more than this and `kind_of` reads one; an enum of letters would be matched twice.
    fn field(&mut self, word: &[u8]) -> Field {
        let (letter, rest) = match word {
            [letter, rest @ ..] => (*letter, rest),
            [] => (0, word),
        };
        match letter {
            b'b' => Field::Flag(number(rest) == 1),
            b'u' => Field::U64(number(rest)),
            b'i' => Field::I64(signed(number(rest))),
            b'f' => Field::F64(number(rest)),
            b'y' => Field::Bytes(self.part(rest)),
            b'Y' => Field::Bytes(longer(self.part(rest))),
            b's' => Field::Text(self.part(rest)),
            _ => Field::Text(longer(self.part(rest))),
        }
    }
}

impl Fields {
    // The fields of some words. The bytes of their strings are put into the texts.
    pub(crate) fn of(words: Words<'_>, texts: &mut Texts<'_>) -> Self {
        let mut fields = Fields {
            cells: [Field::Flag(false); MOST],
            len: 0,
        };
        for word in words.take(MOST) {
            fields.push(texts.field(word));
        }
        fields
    }

    fn push(&mut self, field: Field) {
        if let Some(cell) = self.cells.get_mut(self.len) {
            *cell = field;
            self.len += 1;
        }
    }

    pub(crate) fn as_slice(&self) -> &[Field] {
        self.cells.get(..self.len).unwrap_or(&[])
    }
}

fn kind_of(word: &[u8]) -> Kind {
    match word.first() {
        Some(b'b') => Kind::Boolean,
        Some(b'u') => Kind::Unsigned,
        Some(b'i') => Kind::Signed,
        Some(b'f') => Kind::Float,
        Some(b'y') => Kind::Binary,
        _ => Kind::String,
    }
}

impl Kinds {
    // The kinds of some words.
    pub(crate) fn of(words: Words<'_>) -> Self {
        let mut kinds = Kinds {
            cells: [Kind::Boolean; MOST],
            len: 0,
        };
        for word in words.take(MOST) {
            kinds.push(kind_of(word));
        }
        kinds
    }

    fn push(&mut self, kind: Kind) {
        if let Some(cell) = self.cells.get_mut(self.len) {
            *cell = kind;
            self.len += 1;
        }
    }

    pub(crate) fn as_slice(&self) -> &[Kind] {
        self.cells.get(..self.len).unwrap_or(&[])
    }
}
