// The six keys of the store, and what decoding one answers; module encode has the encodings. It is the Key of toydb's
// storage/mvcc.rs, over lent buffers.
pub(crate) mod decoding;

pub use crate::key::decoding::decode;
use crate::parts::Part;

// A key with its fields; its string is a part of the bytes that it was decoded from.
#[derive(Clone, Copy, Debug, PartialEq, Eq)]
pub enum Key {
    NextVersion,
    TxnActive(u64),
    TxnActiveSnapshot(u64),
    TxnWrite(u64, Part),
    Version(Part, u64),
    Unversioned(Part),
}
