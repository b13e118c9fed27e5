//! Why no image is made.

ghost use Rattle.std.specs.Prelude.{◌≡◌};
ghost use Rattle.grammar_image.specs.declared.refusal.ImageRefusal.TheVariants.{Memory};

use text_base::NoMemory;
use thiserror::Error;

/// Why no image is made.
#[derive(Clone, Copy, Debug, PartialEq, Eq, Error)]
pub enum ImageRefusal {
    /// There are at least so many items, which is over the limit.
    #[error("at least {items} items")]
    Large { items: u64 },
    /// No memory was left.
    #[error("out of memory")]
    Memory,
}

impl From<NoMemory> for ImageRefusal {
    ghost from_gives = { λ _ refusal. refusal ≡ Memory };

    fn from(_: NoMemory) -> Self {
        ImageRefusal::Memory
    }
}
