// The six kinds of a field of a typed key, each with its bytes and its order: what rows of such fields rest on.
#![tactic(auto)]

mod fields;
pub mod signs;
pub mod utf8;

pub use fields::{Denial, Kind};
