//! Why the work on pairs stops before all are found.

ghost use Rattle.std.specs.Prelude.{◌≡◌};

use text_base::NoMemory;

/// Why the work stops.
#[derive(Clone, Copy, Debug, PartialEq, Eq)]
pub enum Halt {
    /// No memory is left.
    Memory,
    /// The last pair is of the start, and not whole.
    NotWhole,
    /// A nonterminal has so many sums, which is over the limit.
    TooMany(u64),
    /// The last pair's sum has so many unmatched tags, which is over the limit.
    TooLong(u64),
}

impl From<NoMemory> for Halt {
    ghost use Rattle.summary_decision.specs.declared.halt.Halt.TheVariants.{Memory};

    ghost from_gives = { λ _ halt. halt ≡ Memory };

    fn from(_: NoMemory) -> Self {
        Halt::Memory
    }
}
