//! Why no script is made.

ghost use Rattle.std.specs.Prelude.{◌≡◌};
ghost use Rattle.script_maker.specs.declared.refusal.MakeRefusal.TheVariants.{Memory};

use text_base::NoMemory;
use thiserror::Error;

/// Why no script is made.
#[derive(Clone, Copy, Debug, PartialEq, Eq, Error)]
pub enum MakeRefusal {
    /// A script has at least one function and at most 1,000, and these are so many.
    #[error("a script cannot have {functions} functions")]
    Size { functions: u32 },
    /// No memory was left.
    #[error("out of memory")]
    Memory,
}

impl From<NoMemory> for MakeRefusal {
    ghost from_gives = { λ _ refusal. refusal ≡ Memory };

    fn from(_: NoMemory) -> Self {
        MakeRefusal::Memory
    }
}
