//! Why no table is built.

ghost use Rattle.std.specs.Prelude.{◌≡◌};
ghost use Rattle.content_automata.specs.declared.refusal.ContentRefusal.TheVariants.{Memory};

use text_base::NoMemory;
use thiserror::Error;

/// Why no table is built.
#[derive(Clone, Copy, Debug, PartialEq, Eq, Error)]
pub enum ContentRefusal {
    /// The content models have over 4,096 states, at least `count`; or just `count` pairs of positions
    /// of which the second may come behind the first, over 4,194,304; or states with over 16,777,216
    /// moves, at least `count`.
    #[error("the content models are too large: {count}")]
    Limit { count: u64 },
    /// No memory was left.
    #[error("out of memory")]
    Memory,
}

impl From<NoMemory> for ContentRefusal {
    ghost from_gives = { λ _ refusal. refusal ≡ Memory };

    fn from(_: NoMemory) -> Self {
        ContentRefusal::Memory
    }
}
