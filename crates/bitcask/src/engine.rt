// The door between the transactions and the engine: everything above it speaks of rows, never of slots or words.
// mark is the way in, view what it gives to read from, store what is written to, spot the places of rows in key order, row what stands at one, span the rows of a range, change what is appended, judging what they are refused for, ending how rows end, tomb the tombstone of a key that stands in the log.
pub mod change;
pub mod ending;
pub mod judging;
pub mod mark;
pub mod row;
pub mod span;
pub mod spot;
pub mod store;
pub(crate) mod tomb;
pub mod view;
pub mod walk;

pub use crate::engine::mark::{Mark, enter};
pub use crate::engine::span::Span;
pub use crate::engine::spot::Spot;
pub use crate::engine::store::Store;
pub use crate::engine::view::View;
