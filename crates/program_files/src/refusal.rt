//! Why no program is loaded.

use php_lexer::LexRefusal;
use php_parser::ParseRefusal;
use text_base::{Bytes, NoMemory};
use thiserror::Error;

/// Why a file is no script of the language.
#[derive(Clone, Copy, Debug, PartialEq, Eq, Error)]
pub enum ScriptRefusal {
    /// It breaks the lexical grammar.
    #[error("{0}")]
    Lex(LexRefusal),
    /// Its tokens spell no tree, or are too deep.
    #[error("{0}")]
    Parse(ParseRefusal),
}

/// Why no program is loaded. The first that holds is told, in this order: `Missing` to `Script` of
/// each file as it is read; the rules `IncludeCycle` to `Arity` once all files are read; and
/// `TooMany`, but for a 257th included file or missed name, which is told at once.
#[derive(Debug, PartialEq, Eq, Drop, Error)]
pub enum LoadRefusal {
    /// The source has no such file; an include has its name here as it is written.
    #[error("a file of the program is missing")]
    Missing { name: Bytes },
    /// An include, by its name as it is written, leads out of the root.
    #[error("a file of the program lies outside of its root")]
    Outside { name: Bytes },
    /// The source failed at this file.
    #[error("a file of the program cannot be read")]
    ReadFault { name: Bytes },
    /// The file has over 1,048,576 bytes, at least `len`.
    #[error("a file of the program has {len} bytes or more")]
    TooLong { name: Bytes, len: u64 },
    /// The file is no script of the language.
    #[error("a file of the program is no script")]
    Script { name: Bytes, refusal: ScriptRefusal },
    /// The file includes itself, directly or through others.
    #[error("a file of the program includes itself")]
    IncludeCycle { name: Bytes },
    /// A function of this name, in lower case, is defined twice, or is one of PHP's.
    #[error("a function is defined twice")]
    DoubleFunction { name: Bytes },
    /// A function of this name is called, and there is none.
    #[error("a function is called that there is not")]
    UnknownFunction { name: Bytes },
    /// A function of this name is called with too few or too many arguments.
    #[error("a function is called with too few or too many arguments")]
    Arity { name: Bytes },
    /// A limit is passed: `count` is that limit and one more. There are 256 places of includes at
    /// most, 200,000 nodes, and a height of 1,000, with each include replaced.
    #[error("the program is too large")]
    TooMany { count: u64 },
    /// No memory was left.
    #[error("out of memory")]
    Memory,
}

impl From<NoMemory> for LoadRefusal {
    ghost use Rattle.std.specs.Prelude.{◌≡◌};
    ghost use Rattle.program_files.specs.declared.refusal.LoadRefusal.TheVariants.{Memory};

    ghost from_gives = { λ _ refusal. refusal ≡ Memory };

    fn from(_: NoMemory) -> Self {
        LoadRefusal::Memory
    }
}
