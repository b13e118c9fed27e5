//! What is asked.

use cfg_grammar::Grammar;
use std::alloc::Global;
use tag_sums::Summary;

/// Whether each sentence of the grammar is whole by the summary, with at most so many sums a
/// nonterminal.
pub struct Question<'a, S: Summary> {
    pub alloc: Global,
    pub summary: &'a S,
    pub grammar: &'a Grammar,
    pub limit: u64,
}
