//! Rules of a grammar.

/// A rule of a grammar. Symbols are numbers, 0 is none in a right side.
#[derive(Clone, Copy, Debug, PartialEq, Eq)]
pub struct Rule {
    /// Its left side.
    pub left: u16,
    /// Its right side from behind, and 0 where it has fewer symbols.
    pub back: [u16; 10],
    /// It does not stand before a token that has a greater power to the left.
    pub before: u16,
    /// It does not stand behind a symbol that has a greater power to the right.
    pub behind: u16,
}
