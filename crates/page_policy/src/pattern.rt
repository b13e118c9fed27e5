//! Patterns in memory.

use derivatives::Arena;

/// A pattern: an expression of the arena, by its number.
#[derive(Drop)]
pub struct Pattern {
    pub arena: Arena,
    pub root: usize,
}
