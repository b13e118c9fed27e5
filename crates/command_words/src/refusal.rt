//! Why words ask for nothing.

ghost use Rattle.std.specs.Prelude.{◌≡◌};
ghost use Rattle.command_words.specs.declared.refusal.WordsRefusal.TheVariants.{Memory};

use std::alloc::AllocError;
use thiserror::Error;

/// Why words ask for nothing.
#[derive(Debug, PartialEq, Eq, Error, Drop)]
pub enum WordsRefusal {
    /// The words are none that the program takes. `reason` is the first line of what `clap` says of
    /// them; there is none where `clap` takes them, and a number in them is none.
    #[error("the words are none that the program takes")]
    Usage { reason: Option<String> },
    /// No memory was left.
    #[error("out of memory")]
    Memory,
}

impl From<AllocError> for WordsRefusal {
    ghost from_gives = { λ _ refusal. refusal ≡ Memory };

    fn from(_: AllocError) -> Self {
        WordsRefusal::Memory
    }
}
