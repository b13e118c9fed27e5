//! The answers.

use derivations::Derivation;

/// Which sentence of a grammar is a shortest one that is not whole.
#[derive(Debug, Drop)]
pub enum ShortAnswer {
    /// None: each sentence is whole.
    Whole,
    /// The sentence of this derivation. Each that has fewer bytes, and fewer than the largest `u64`,
    /// is whole.
    Shortest(Derivation),
    /// Some useful nonterminal has at least `count` different sums of sentences of at most `length`
    /// bytes (of any number, where that is the largest `u64`), and `count` is over the limit. Every
    /// sentence of the start of fewer bytes is whole.
    Pairs { count: u64, length: u64 },
    /// Some such sentence of a useful nonterminal has `count` unmatched tags, and `count` is over
    /// `TAG_LIMIT` of summary_decision. Every sentence of the start of fewer bytes is whole.
    Tags { count: u64, length: u64 },
}
