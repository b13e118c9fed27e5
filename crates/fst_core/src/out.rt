//! What a move puts out.

use text_base::PageToken;

/// One thing that a move puts out.
#[derive(Clone, Copy, Debug, PartialEq, Eq, Hash)]
pub enum Out {
    /// The byte that is read.
    Same,
    /// The byte that is read plus the number, modulo 256.
    Shift(u8),
    /// This byte.
    Byte(u8),
    /// This page token.
    Token(PageToken),
}
