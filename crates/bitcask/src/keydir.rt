// The table of the log's keys: three words a slot, slots in byte order of their keys, the place of a key found by halving, slots put in
// and taken out. It is the KeyDir of toydb's storage/bitcask.rs over a lent table of words.
pub mod place;
pub mod slots;

pub(crate) use crate::keydir::place::{enter, find, leave};
pub use crate::keydir::slots::{SLOT_WORDS, Slot, key_of};
pub(crate) use crate::keydir::slots::{Slots, count, remove_span, slot_at, value_of};
