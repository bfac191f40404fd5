// One entry of the log, read and written: toydb's Log::write_entry, and the part of its build_keydir that reads one entry, over a
// lent log.
pub(crate) mod length;
pub mod read;
pub mod write;

pub use crate::entry::read::{Lengths, entry_at};
pub use crate::entry::write::copy_into;
pub(crate) use crate::entry::write::{GONE, put_del, put_set};
