//! The answers of the decision.

use derivations::Derivation;

/// The most unmatched tags in a sum.
pub const TAG_LIMIT: u64 = 4_096;

/// Whether each sentence of a grammar is whole.
#[derive(Debug, Drop)]
pub enum Verdict {
    /// Each is.
    Yes,
    /// The sentence of this derivation is not.
    No(Derivation),
    /// Some useful nonterminal has at least `count` different sums of sentences with derivations of
    /// at most `height`, and `count` is over the limit. Every sentence of the start with a
    /// derivation of a smaller height is whole.
    Pairs { count: u64, height: u64 },
    /// Some sentence of a useful nonterminal with a derivation of at most `height` has `count`
    /// unmatched tags, and `count` is over `TAG_LIMIT`. Every sentence of the start with a
    /// derivation of a smaller height is whole.
    Tags { count: u64, height: u64 },
}
