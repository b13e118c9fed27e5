//! What may stand in elements besides elements.

/// What an element may hold besides child elements (XML 1.0, 3.2.1 and 3.2.2).
#[derive(Clone, Copy, Debug, PartialEq, Eq)]
pub enum Besides {
    /// Nothing at all.
    Nothing,
    /// White space, comments and instructions.
    Between,
    /// These, and text.
    Anything,
}
