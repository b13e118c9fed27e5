//! Why the derivatives of an expression are not listed.

ghost use Rattle.std.specs.Prelude.{◌≡◌};
ghost use Rattle.policy_matching.specs.declared.refusal.StatesRefusal.TheVariants.{Memory};

use text_base::NoMemory;

/// The most derivatives of an expression: more end the listing.
pub const STATE_LIMIT: u64 = 65_536;

/// Why the derivatives of an expression are not listed.
#[derive(Clone, Copy, Debug, PartialEq, Eq)]
pub enum StatesRefusal {
    /// There are at least so many, over `STATE_LIMIT`.
    States { count: u64 },
    /// No memory was left.
    Memory,
}

impl From<NoMemory> for StatesRefusal {
    ghost from_gives = { λ _ refusal. refusal ≡ Memory };

    fn from(_: NoMemory) -> Self {
        StatesRefusal::Memory
    }
}
