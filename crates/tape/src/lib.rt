// The tape: one record in, its answers out, over lent buffers. toydb has none; the calls are those of its
// storage/mvcc.rs and bitcask.rs.
#![tactic(auto)]

mod answers;
mod calls;
pub mod format;
mod scan;
mod state;
mod turn;

pub use state::Turn;
pub use turn::take;
