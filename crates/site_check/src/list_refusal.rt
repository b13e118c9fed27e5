//! Why a text is no list of scripts.

ghost use Rattle.std.specs.Prelude.{◌≡◌};
ghost use Rattle.site_check.specs.declared.list_refusal.ListRefusal.TheVariants.{Memory};

use std::alloc::AllocError;
use text_base::NoMemory;
use thiserror::Error;

/// The most names that a list may have.
pub const NAMES_LIMIT: usize = 1000;

/// Why a text is no list of scripts.
#[derive(Clone, Copy, Debug, PartialEq, Eq, Error)]
pub enum ListRefusal {
    /// The line of this number, from 1, is no UTF-8, and none before it.
    #[error("line {line} is no UTF-8")]
    NotUtf8 { line: u64 },
    /// There are so many names: none, or over `NAMES_LIMIT`.
    #[error("there are {count} names")]
    Names { count: u64 },
    /// No memory was left.
    #[error("out of memory")]
    Memory,
}

impl From<NoMemory> for ListRefusal {
    ghost from_gives = { λ _ refusal. refusal ≡ Memory };

    fn from(_: NoMemory) -> Self {
        ListRefusal::Memory
    }
}
