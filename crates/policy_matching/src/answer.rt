//! What is answered.

use derivations::Derivation;

/// Whether each text that a grammar derives matches an expression.
#[derive(Debug, Drop)]
pub enum Match {
    /// Each does.
    All,
    /// This is a derivation of one that does not.
    Miss(Derivation),
    /// The image of the grammar under the machine of derivatives has at least `count` items, over
    /// the limit.
    Items { count: u64 },
    /// The expression has at least `count` derivatives, over `STATE_LIMIT`.
    States { count: u64 },
}
