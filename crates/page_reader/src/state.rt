//! The states of the reader.

ghost use Rattle.std.specs.Prelude.{◌≡◌, IfOk};
ghost use Rattle.page_reader.specs.Exactness.{exact_state};

use open_pieces::HeldState;
use std::alloc::Global;
use text_base::{Exact, NoMemory};

/// What is known of a page behind some of its bytes.
#[derive(Debug, PartialEq, Eq, Hash, Drop)]
pub enum ReaderState {
    /// No lawful piece comes of the rest of the page, and what stands for it is put out.
    Failed,
    /// What is open.
    Reading(HeldState),
}

impl Exact for ReaderState {
    ghost exact = { exact_state };
}

impl ReaderState {
    /// The same once more.
    pub fn copy(&self, alloc: Global) -> Result<ReaderState, NoMemory>
        ensures { IfOk result (λ s. s ≡ self.now) }
    {
        match self {
            ReaderState::Failed => Ok(ReaderState::Failed),
            ReaderState::Reading(held) => Ok(ReaderState::Reading(held.copy(alloc)?)),
        }
    }
}
