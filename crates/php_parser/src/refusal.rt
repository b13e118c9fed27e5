//! Why tokens are refused.

use text_base::NoMemory;
use thiserror::Error;

/// Why tokens are refused, with a place in the file, in bytes from 0.
#[derive(Clone, Copy, Debug, PartialEq, Eq, Error)]
pub enum ParseRefusal {
    /// The tokens spell no tree. The place is that of the first token that no tree goes on with, or
    /// of the last token.
    #[error("no statement of the language goes on at byte {at}")]
    NotInSubset { at: u32 },
    /// More than 200 brackets are open at once, where the last of them is opened; or the tree is
    /// over 200 high.
    #[error("what is nested at byte {at} is too deep")]
    TooDeep { at: u32 },
    /// No memory was left.
    #[error("out of memory")]
    Memory,
}

impl From<NoMemory> for ParseRefusal {
    ghost use Rattle.std.specs.Prelude.{◌≡◌};
    ghost use Rattle.php_parser.specs.declared.refusal.ParseRefusal.TheVariants.{Memory};

    ghost from_gives = { λ _ refusal. refusal ≡ Memory };

    fn from(_: NoMemory) -> Self {
        ParseRefusal::Memory
    }
}
