// Typed keys: rows of up to eight fields whose kinds are named beforehand. It is the serde half of toydb's encoding/keycode.rs, over lent
// buffers.
#![tactic(auto)]

mod decoding;
mod encoding;
mod fields;

pub use codecs::{Denial, Kind};
pub use decoding::decode_row;
pub use encoding::encode_row;
pub use fields::{Field, Row};
