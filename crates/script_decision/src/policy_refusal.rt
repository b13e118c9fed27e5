//! Why a program has no answer.

ghost use Rattle.std.specs.Prelude.{◌≡◌};
ghost use Rattle.script_decision.specs.declared.policy_refusal.MatchRefusal.TheVariants.{Memory};

use text_base::NoMemory;
use thiserror::Error;

/// Why a program has no answer.
#[derive(Clone, Copy, Debug, PartialEq, Eq, Error)]
pub enum MatchRefusal {
    /// A text literal of the program has over 16,777,216 bytes, and so is no text of a run.
    #[error("a text has more than 16,777,216 bytes")]
    LongText,
    /// No memory was left.
    #[error("out of memory")]
    Memory,
}

impl From<NoMemory> for MatchRefusal {
    ghost from_gives = { λ _ refusal. refusal ≡ Memory };

    fn from(_: NoMemory) -> Self {
        MatchRefusal::Memory
    }
}
