//! What is kept of a derivation.

/// Some bytes of a sentence; at least one.
#[derive(Clone, Copy, Debug, PartialEq, Eq)]
pub enum Piece {
    Byte(u8),
    /// A fork, by its place.
    Fork(u64),
}

/// Two pieces, one behind the other.
#[derive(Clone, Copy, Debug, PartialEq, Eq)]
pub struct Fork {
    pub first: Piece,
    pub second: Piece,
}

/// The bytes that are put into a sink at once.
pub const CHUNK: usize = 4096;
