//! What is told of a derivation.

/// What was read. Events come in the order in which a derivation is completed: the parts of a rule
/// before the rule.
#[derive(Clone, Copy, Debug, PartialEq, Eq)]
pub enum Event {
    /// A token.
    Token,
    /// What the rule of this number is made of.
    Rule(u16),
}
