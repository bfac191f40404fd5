// The log: open, get, scan step, set, delete, compaction, status and the yes/no on agreement, over a lent log and a lent table. It is
// toydb's storage/bitcask.rs and engine.rs. What is public below the modules is for the transactions.
#![tactic(auto)]

pub mod answers;
pub mod append;
pub mod change;
mod check;
pub mod compaction;
pub mod engine;
pub mod entry;
pub mod keydir;
mod merging;
pub mod rank;
pub mod read;
pub mod recovery;
pub mod report;
pub mod request;

pub use answers::{Bound, KeyValue};
pub use change::{delete, set};
pub use check::agrees;
pub use compaction::compact;
pub use read::{get, part, scan_step};
pub use recovery::open;
pub use report::{Counts, status};
pub use request::Used;
