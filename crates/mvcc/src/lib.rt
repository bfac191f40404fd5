// The transactions: every public call of toydb's storage/mvcc.rs, with the types that they take and answer.
#![tactic(auto)]

mod admission;
pub mod append;
pub mod as_of;
pub mod begun;
mod conflict;
pub mod end;
pub mod handle;
pub mod payload;
pub mod read;
pub mod read_only;
pub mod report;
pub mod scan;
mod snapshot;
pub mod start;
pub mod undo;
pub mod unversioned;
pub mod version;
mod walk;
pub mod write;

pub use as_of::begin_as_of;
pub use begun::Begun;
pub use bitcask::{Bound, KeyValue, Used};
pub use end::commit::commit;
pub use end::rollback::rollback;
pub use handle::Handle;
pub use read::get::get;
pub use read::resume::resume;
pub use read_only::begin_read_only;
pub use report::{Versions, status};
pub use scan::prefix::scan_prefix_step;
pub use scan::scan_step;
pub use start::begin;
pub use unversioned::get::get_unversioned;
pub use unversioned::set::set_unversioned;
pub use write::{delete, set};
