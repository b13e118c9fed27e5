//! Why a written tree is not read again.

use php_lexer::LexRefusal;
use php_parser::ParseRefusal;
use text_base::NoMemory;
use thiserror::Error;

/// Why a written tree is not read again.
#[derive(Debug, Drop, Error)]
pub enum Unread {
    /// The file that was written is not cut into tokens.
    #[error("{0}")]
    Lex(LexRefusal),
    /// No tree is read of its tokens.
    #[error("{0}")]
    Parse(ParseRefusal),
    /// No memory was left.
    #[error("out of memory")]
    Memory,
}

impl From<NoMemory> for Unread {
    ghost use Rattle.std.specs.Prelude.{◌≡◌};
    ghost use Rattle.php_writer.specs.declared.unread.Unread.TheVariants.{Memory};

    ghost from_gives = { λ _ refusal. refusal ≡ Memory };

    fn from(_: NoMemory) -> Self {
        Unread::Memory
    }
}

impl From<LexRefusal> for Unread {
    ghost use Rattle.std.specs.Prelude.{◌≡◌};
    ghost use Rattle.php_writer.specs.declared.unread.Unread.TheVariants.{Lex};

    ghost from_gives = { λ cause refusal. refusal ≡ Lex cause };

    fn from(refusal: LexRefusal) -> Self {
        Unread::Lex(refusal)
    }
}

impl From<ParseRefusal> for Unread {
    ghost use Rattle.std.specs.Prelude.{◌≡◌};
    ghost use Rattle.php_writer.specs.declared.unread.Unread.TheVariants.{Parse};

    ghost from_gives = { λ cause refusal. refusal ≡ Parse cause };

    fn from(refusal: ParseRefusal) -> Self {
        Unread::Parse(refusal)
    }
}
