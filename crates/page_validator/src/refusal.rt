//! Why a page was not found valid.

ghost use Rattle.std.specs.Prelude.{◌≡◌};
ghost use Rattle.page_validator.specs.declared.refusal.PageRefusal.TheVariants.{Memory};

use text_base::NoMemory;
use thiserror::Error;

/// Why a page was not found valid.
#[derive(Clone, Copy, Debug, PartialEq, Eq, Error)]
pub enum PageRefusal {
    /// The page is not valid. `at` is where that showed, in bytes from the page's beginning.
    #[error("the page is not valid, as byte {at} shows")]
    PageFault { at: u64 },
    /// The content models of the definition pass a limit of content_automata (`PassLimit`): on their
    /// states, on their pairs of positions, or on the moves of the states.
    #[error("the content models are too large: {count}")]
    Limit { count: u64 },
    /// No memory was left.
    #[error("out of memory")]
    Memory,
}

impl From<NoMemory> for PageRefusal {
    ghost from_gives = { λ fault refusal. refusal ≡ Memory };

    fn from(_: NoMemory) -> Self {
        PageRefusal::Memory
    }
}
