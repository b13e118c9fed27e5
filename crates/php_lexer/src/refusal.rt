//! Why a file is refused.

ghost use Rattle.std.specs.Prelude.{◌≡◌};

use lexical_grammar::fault::LexicalFault;
use text_base::NoMemory;
use thiserror::Error;

/// Why a file is refused.
#[derive(Clone, Copy, Debug, PartialEq, Eq, Error)]
pub enum LexRefusal {
    /// The first place from the left at which the file breaks the lexical grammar, in bytes from 0,
    /// and in which way.
    #[error("{fault}, at byte {at}")]
    Breaks { fault: LexicalFault, at: u32 },
    /// The file has over 1,048,576 bytes, this many.
    #[error("the file has {len} bytes")]
    TooLong { len: u64 },
    /// No memory was left.
    #[error("out of memory")]
    Memory,
}

impl From<NoMemory> for LexRefusal {
    ghost use Rattle.php_lexer.specs.declared.refusal.LexRefusal.TheVariants.{Memory};

    ghost from_gives = { λ _ refusal. refusal ≡ Memory };

    fn from(_: NoMemory) -> Self {
        LexRefusal::Memory
    }
}
