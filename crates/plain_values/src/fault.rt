//! The faults of a script's operations.

ghost use Rattle.std.specs.Prelude.{◌≡◌, ℕ};
ghost use Rattle.plain_values.specs.declared.fault.Fault.TheVariants.{Memory};

use std::alloc::{AllocError, AllocFailed};
use text_base::NoMemory;
use thiserror::Error;

/// What an operation of a script stops at. PHP goes on with a warning at some of them; here a run
/// ends.
#[derive(Clone, Copy, Debug, PartialEq, Eq, Error)]
pub enum Fault {
    /// A result or an operand is a floating point number, which scripts here do not have.
    #[error("Float")]
    Float,
    /// An operand is a text that is no number.
    #[error("NotNumber")]
    NotNumber,
    /// An array stands as a key, or a member of a value that is no array is read or written.
    #[error("BadIndex")]
    BadIndex,
    /// An array is compared by `==` or `<`.
    #[error("Compare")]
    Compare,
    /// An array has no next integer key.
    #[error("Full")]
    Full,
    /// A text is no UTF-8.
    #[error("NotUtf8")]
    NotUtf8,
    /// A divisor is 0.
    #[error("ZeroDivisor")]
    ZeroDivisor,
    /// An operand has a type that the operation does not take.
    #[error("WrongType")]
    WrongType,
    /// A text or an array would pass its limit of size.
    #[error("Long")]
    Long,
    /// No memory is left.
    #[error("out of memory")]
    Memory,
}

impl From<NoMemory> for Fault {
    ghost from_gives = { λ cause fault. fault ≡ Memory };

    fn from(_: NoMemory) -> Self {
        Fault::Memory
    }
}

impl From<AllocError> for Fault {
    ghost from_gives = { λ cause fault. fault ≡ Memory };

    fn from(_: AllocError) -> Self {
        Fault::Memory
    }
}

impl<T: Drop> From<AllocFailed<T>> for Fault {
    ghost from_gives = { λ cause fault. fault ≡ Memory };

    fn from(_: AllocFailed<T>) -> Self {
        Fault::Memory
    }
}
