//! What the worklist holds.

use indexmap::IndexSet;
use loose_sets::SetName;
use system_writing::Draft;

/// Names of sets, each with its nonterminal, and the system that is written for them.
#[derive(Debug, Drop)]
pub struct Work {
    /// The names in the order in which they were asked for.
    pub names: IndexSet<SetName>,
    /// By the place of each name, its nonterminal.
    pub numbers: Vec<u64>,
    pub draft: Draft,
}
