//! The pairs that are found, each with a derivation.

use crate::queue::Queue;
use crate::sums::Sums;
use derivations::Parts;
use indexmap::IndexSet;
use std::hash::Hash;
use summary_decision::Entry;
use text_base::Exact;

/// The shortest derivation of a pair so far, by a production and what stands for its symbols.
#[derive(Clone, Copy, Debug, PartialEq, Eq)]
pub struct Draft {
    /// The place of the production.
    pub production: u64,
    pub parts: Parts,
    /// The number of bytes of its sentence, at most the largest `u64`.
    pub length: u64,
    /// Whether the pair is taken up, so that no derivation of it is shorter.
    pub is_taken: bool,
}

/// The pairs that are found.
#[derive(Drop)]
pub struct Table<T: Exact + Hash + Drop> {
    pub sums: Sums<T>,
    /// Each pair once, by the numbers of its nonterminal and its sum.
    pub found: IndexSet<Entry>,
    /// The draft of each of these.
    pub drafts: Vec<Draft>,
    /// The drafts that are not taken up, by their lengths.
    pub queue: Queue,
}
