//! The tokens of a declaration.

/// One token of the text of a declaration (XML 1.0, 2.3).
#[derive(Clone, Copy, Debug)]
pub enum Token<'a> {
    /// White space.
    Gap,
    /// A name token.
    Word(&'a [u8]),
    /// The text between two quotes.
    Literal(&'a [u8]),
    /// `(`
    Opening,
    /// `)`
    Closing,
    /// `|`
    Bar,
    /// `,`
    Comma,
    /// `?`
    Question,
    /// `*`
    Star,
    /// `+`
    Plus,
    /// `#`
    Hash,
    /// `%`
    Percent,
    /// `=`
    Equals,
    /// A byte that none of these begins with.
    Other,
}
