//! Sums by numbers, and their compositions.

use indexmap::IndexSet;
use std::hash::Hash;
use summary_decision::Join;
use text_base::Exact;

/// Sums that are numbered, with the compositions that were made of them.
#[derive(Drop)]
pub struct Sums<T: Exact + Hash + Drop> {
    /// Each sum once.
    pub numbered: IndexSet<T>,
    /// Each two sums that were composed.
    pub joins: IndexSet<Join>,
    /// The number of the composition of each two of these.
    pub joined: Vec<u64>,
}
