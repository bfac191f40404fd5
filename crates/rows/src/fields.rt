// A row's fields, and the row that decoding answers.
ghost use Rattle.std.specs.Prelude.{◌≡◌};
ghost use Rattle.rows.specs.Promises.{fields_of};

use keycode::Part;

// A field's value. A float is its 64-bit pattern. Bytes and a text are a part of the lent slice: the string itself where a row is
// encoded, its escaped bytes with no end where one was decoded.
#[derive(Clone, Copy, Debug, PartialEq, Eq)]
pub enum Field {
    Flag(bool),
    U64(u64),
    I64(i64),
    F64(u64),
    Bytes(Part),
    Text(Part),
}

// Room for the fields of a row, at most eight, and how many of them stand in it: there is no heap to hold a `Vec`.
#[derive(Clone, Copy, Debug, PartialEq, Eq)]
pub struct Row {
    pub cells: [Field; 8],
    pub len: usize,
}

impl Row {
    // The row's fields.
    pub fn fields(&self) -> &[Field]
        ensures { result.now ≡ fields_of self.now }
    {
        &self.cells[..self.len.min(8)]
    }
}
