//! Why code is not lowered.

use std::alloc::{AllocError, AllocFailed};
use text_base::NoMemory;
use thiserror::Error;

/// Why an expression, a statement or a program is not lowered to points.
#[derive(Clone, Copy, Debug, PartialEq, Eq, Error)]
pub enum LoweringError {
    /// No memory was left.
    #[error("out of memory")]
    Memory,
    /// A text in the program has more than 16,777,216 bytes.
    #[error("a text has more than 16,777,216 bytes")]
    LongText,
}

impl From<NoMemory> for LoweringError {
    fn from(_: NoMemory) -> Self {
        LoweringError::Memory
    }
}

impl From<AllocError> for LoweringError {
    fn from(_: AllocError) -> Self {
        LoweringError::Memory
    }
}

impl<T: Drop> From<AllocFailed<T>> for LoweringError {
    fn from(_: AllocFailed<T>) -> Self {
        LoweringError::Memory
    }
}
