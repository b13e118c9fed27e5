//! In which way a file breaks the lexical grammar.

use thiserror::Error;

/// In which way a file breaks the lexical grammar at a place: the one list of these ways, of which
/// the definitions, the lexer's refusals and the program's texts speak.
#[derive(Clone, Copy, Debug, PartialEq, Eq, Error)]
pub enum LexicalFault {
    /// No token begins there.
    #[error("no token begins there")]
    BadByte,
    /// A text, a heredoc or a comment begins there and has no end.
    #[error("what begins there has no end")]
    Unclosed,
    /// A float literal begins there.
    #[error("a float begins there")]
    Float,
    /// An integer literal over 9,223,372,036,854,775,807 begins there.
    #[error("too large an integer begins there")]
    BigInt,
    /// An escape, a form of interpolation or an end of a heredoc that the language leaves out
    /// begins there.
    #[error("an escape or interpolation that is left out begins there")]
    Escape,
}
