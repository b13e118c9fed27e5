//! How two expressions are joined.

/// What is made of the last two expressions of a stack.
#[derive(Clone, Copy)]
pub enum Joining {
    /// The one before the last, and the last behind it.
    Chain,
    /// The last, and the one before it behind it.
    ChainBefore,
    /// The one before the last, or the last.
    Either,
    /// The last, or the one before it.
    EitherBefore,
    /// Some of the members of the one before the last, in any order, with the last as one member
    /// more, which may be required.
    Member(bool),
}
