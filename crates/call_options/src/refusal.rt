//! Why a file gives no options.

ghost use Rattle.std.specs.Prelude.{◌≡◌};
ghost use Rattle.call_options.specs.declared.refusal.OptionsRefusal.TheVariants.{Memory};
ghost use Rattle.call_options.specs.declared.refusal.OptionsFault.TheVariants.{Text};

use io_edge::FileFault;
use text_base::{Bytes, NoMemory};
use thiserror::Error;

/// Why the text of a file gives no options.
#[derive(Debug, PartialEq, Eq, Drop, Error)]
pub enum OptionsRefusal {
    /// The bytes are no TOML, which shows in this line, from 1.
    #[error("line {line} is no TOML")]
    NotToml { line: u64 },
    /// This member is none of the options, or its value is none of that option: the first such.
    #[error("the file has a member that is no option")]
    Member { name: Bytes },
    /// No memory was left.
    #[error("out of memory")]
    Memory,
}

impl From<NoMemory> for OptionsRefusal {
    ghost from_gives = { λ _ refusal. refusal ≡ Memory };

    fn from(_: NoMemory) -> Self {
        OptionsRefusal::Memory
    }
}

/// Why a call has no options of its file, though the file is there.
#[derive(Debug, PartialEq, Eq, Drop, Error)]
pub enum OptionsFault {
    /// The file is not read.
    #[error("the file of options is not read")]
    File(FileFault),
    /// Its text gives no options.
    #[error("the file gives no options")]
    Text(OptionsRefusal),
}

impl From<NoMemory> for OptionsFault {
    ghost from_gives = { λ _ fault. fault ≡ Text Memory };

    fn from(_: NoMemory) -> Self {
        OptionsFault::Text(OptionsRefusal::Memory)
    }
}
