// The bytes of keys: their order, big-endian numbers, escaped strings and prefix ranges, and the six keys of the store, encoded and
// decoded. It is toydb's encoding/keycode.rs and the Key of its storage/mvcc.rs, over lent buffers. The limits and the refusals of all
// layers live here too.
#![tactic(auto)]

pub mod code;
pub mod encode;
pub mod key;
pub mod limits;
pub mod number;
pub mod order;
pub mod parts;
pub mod prefix;
pub mod refusal;
pub mod strings;

pub use encode::{
    encode_next_version, encode_txn_active, encode_txn_active_snapshot, encode_txn_write,
    encode_unversioned, encode_version, encode_version_prefix,
};
pub use key::Key;
pub use key::decoding::decode;
pub use order::compare;
pub use parts::Part;
pub use prefix::{End, prefix_end};
pub use refusal::{Refusal, number_of};
pub use strings::unescape;
