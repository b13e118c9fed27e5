//! Why a file is no pattern that is taken.

ghost use Rattle.std.specs.Prelude.{◌≡◌};
ghost use Rattle.page_policy.specs.declared.refusal.PolicyRefusal.TheVariants.{Memory};

use std::alloc::AllocError;
use text_base::NoMemory;
use thiserror::Error;

/// The most bytes of a pattern file.
pub const POLICY_LIMIT: usize = 4096;

/// The most brackets of a pattern file that are open at once.
pub const OPEN_LIMIT: usize = 100;

/// Why a file is no pattern that is taken.
#[derive(Clone, Copy, Debug, PartialEq, Eq, Error)]
pub enum PolicyRefusal {
    /// The file spells no pattern: what cannot stand there is at this place, from 0.
    #[error("no pattern at byte {at}")]
    NotPattern { at: usize },
    /// The file has so many bytes, over `POLICY_LIMIT`.
    #[error("{len} bytes")]
    TooLong { len: usize },
    /// The bracket at this place, from 0, is the first inside of `OPEN_LIMIT` others.
    #[error("a bracket too many at byte {at}")]
    TooDeep { at: usize },
    /// No memory was left.
    #[error("out of memory")]
    Memory,
}

impl From<NoMemory> for PolicyRefusal {
    ghost from_gives = { λ _ refusal. refusal ≡ Memory };

    fn from(_: NoMemory) -> Self {
        PolicyRefusal::Memory
    }
}
