//! One node of a derivation.

use text_base::PageToken;

/// What stands for one symbol on the right of a production.
#[derive(Clone, Copy, Debug, PartialEq, Eq)]
pub enum Part {
    /// A byte of a range.
    Byte(u8),
    /// A token of a page.
    Token(PageToken),
    /// The node of a nonterminal, by its place in the list.
    Inner(u64),
}

/// What stands for the symbols of a right side.
#[derive(Clone, Copy, Debug, PartialEq, Eq)]
pub enum Parts {
    Empty,
    One(Part),
    Two(Part, Part),
}

/// A use of a production.
#[derive(Clone, Copy, Debug, PartialEq, Eq)]
pub struct Node {
    /// The place of the production in its grammar.
    pub production: u64,
    pub parts: Parts,
    /// The number of bytes of its sentence, at most the largest `u64`.
    pub length: u64,
}
