//! The pairs that are taken up.

use derivations::Nodes;
use summary_decision::Entry;

/// The pairs that are taken up, in the order of the least lengths of their sentences.
#[derive(Drop)]
pub struct Taken {
    pub entries: Vec<Entry>,
    /// The node at the place of each entry.
    pub nodes: Nodes,
    /// How many entries each nonterminal has.
    pub counts: Vec<u64>,
    /// The length of the last one.
    pub length: u64,
}
