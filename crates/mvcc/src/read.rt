// The calls of a transaction that append nothing: get and resume. Part of toydb's storage/mvcc.rs.
pub(crate) mod get;
pub(crate) mod resume;
