// What a host in C or Rust links: the six encodings, decoding, unescaping and the opening of a log, on numbers and byte slices.
// host/tjaldrum.h says the same to a C caller.
#![tactic(auto)]

mod answers;
mod bytes;
pub mod coding;
pub mod opening;
mod place;
mod table;
