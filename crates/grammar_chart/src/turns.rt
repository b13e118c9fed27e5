//! What one step on a chart comes to.

use text_base::ByteRange;

/// What is to be done next.
#[derive(Clone, Copy, Debug, PartialEq, Eq)]
pub enum Turn {
    /// A step was taken.
    Went,
    /// The machine is to say what it does in this state by the bytes of this range.
    Asks(ByteRange, u64),
    /// All is done.
    Done,
}
