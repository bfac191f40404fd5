// The kinds of a field, and why one is refused.
#[derive(Clone, Copy, Debug, PartialEq, Eq)]
pub enum Kind {
    Boolean,
    Unsigned,
    Signed,
    Float,
    Binary,
    String,
}

// Why a row is refused; `denial_number` of specs/Denials.antt gives each its number. 14 and 15 are numbers of the two calls on rows alone.
#[derive(Clone, Copy, Debug, PartialEq, Eq)]
pub enum Denial {
    BadKey = 12,
    BadRequest = 13,
    BadFlag = 14,
    BadText = 15,
}
