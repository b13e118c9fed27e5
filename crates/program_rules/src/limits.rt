//! How large a program may be. These limits are this project's own.

/// The most places of includes that are replaced, and the most names that are included.
pub const PLACE_LIMIT: u64 = 256;

/// The most nodes of a program whose includes are replaced.
pub const NODE_LIMIT: u64 = 200_000;

/// The greatest height of a program whose includes are replaced.
pub const PROGRAM_HEIGHT_LIMIT: u64 = 1_000;
