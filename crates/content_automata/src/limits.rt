//! How large content models may be.

/// The most states that a table has.
pub const STATE_LIMIT: usize = 4096;

/// The most pairs of positions, of which the second may come behind the first, that the content
/// models of a definition have together.
pub const PAIR_LIMIT: usize = 4_194_304;

/// The most moves that the states have together: for each state the pairs of positions that begin
/// in it.
pub const MOVE_LIMIT: usize = 16_777_216;
