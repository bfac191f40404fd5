// Get and set of keys that have no versions and need no transaction. Part of toydb's storage/mvcc.rs.
pub(crate) mod get;
pub(crate) mod set;
