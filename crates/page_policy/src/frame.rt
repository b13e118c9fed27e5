//! What is kept of a bracket while the file before it is read.

use crate::part::Repeat;

/// What stands behind a bracket: the row there and the alternatives behind it, by their numbers, and
/// how often the bracket stands.
#[derive(Clone, Copy)]
pub(crate) struct Frame {
    pub(crate) row: usize,
    pub(crate) others: Option<usize>,
    pub(crate) repeat: Repeat,
}
