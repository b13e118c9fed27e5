//! What is asked for.

/// The derivative of the expression with this number by a byte.
#[derive(Clone, Copy, PartialEq, Eq, Hash)]
pub struct Ask {
    pub place: usize,
    pub byte: u8,
}
