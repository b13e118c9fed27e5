//! Why a program has no grammar.

ghost use Rattle.std.specs.Prelude.{◌≡◌};
ghost use Rattle.loose_grammar.specs.declared.refusal.GrammarRefusal.TheVariants.{Memory};
ghost use Rattle.loose_grammar.specs.Refusals as spec;

use grammar_image::ImageRefusal;
use text_base::NoMemory;
use thiserror::Error;

/// The most items of an image: more end the making of a grammar.
pub const ITEM_LIMIT: u64 = 8_000_000;

/// Why no grammar is made of a program.
#[derive(Clone, Copy, Debug, PartialEq, Eq, Error)]
pub enum GrammarRefusal {
    /// A text literal of the program has over 16,777,216 bytes, and so is no text of a run.
    #[error("a text has more than 16,777,216 bytes")]
    LongText,
    /// The image of a string operation of the program has at least `count` items, and `count` is
    /// over `ITEM_LIMIT`.
    #[error("at least {count} items")]
    Items { count: u64 },
    /// No memory was left.
    #[error("out of memory")]
    Memory,
}

impl From<NoMemory> for GrammarRefusal {
    ghost from_gives = { λ _ refusal. refusal ≡ Memory };

    fn from(_: NoMemory) -> Self {
        GrammarRefusal::Memory
    }
}

/// The refusal of a program whose system is refused so.
pub(crate) fn refusal_of(refusal: ImageRefusal) -> GrammarRefusal
    ensures { result ≡ spec.refusal_of refusal }
{
    match refusal {
        ImageRefusal::Large { items } => GrammarRefusal::Items { count: items },
        ImageRefusal::Memory => GrammarRefusal::Memory,
    }
}
