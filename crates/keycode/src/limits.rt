// The limits, for all layers. specs/Limits.antt has the same numbers for the contracts.
// User keys and user values, in bytes.
pub const MAX_KEY: usize = 64;

pub const MAX_VALUE: usize = 4096;

// Read-write transactions open at once.
pub const MAX_OPEN: usize = 16;

// The log buffer, in bytes.
pub const MAX_LOG: usize = 16_777_216;

// The longest encoding: a tag, a version, and a user key of zeros, escaped and ended.
pub const KEY_BYTES: usize = 1 + 8 + 2 * MAX_KEY + 2;
