//! What the end of a declaration comes to.

use text_base::Bytes;

/// What the end of a declaration comes to.
#[derive(Debug, Drop)]
pub enum Ended {
    /// It is that of an element, of attributes or of a notation.
    Written,
    /// It declares the parameter entity of this name, whose text is the file of that name.
    Outside(Bytes, String),
    LeftOut,
    Refused,
}
