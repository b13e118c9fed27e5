//! The states of the reader of a page.

ghost use Rattle.std.specs.Prelude.{◌≡◌, IfOk};
ghost use Rattle.open_pieces.specs.StateExactness.{exact_state, exact_held};

use crate::open::OpenPiece;
use std::alloc::Global;
use text_base::{Bytes, Exact, NoMemory};

/// What is kept of the pieces before the open one.
#[derive(Clone, Copy, Debug, PartialEq, Eq, Hash)]
pub enum PagePlace {
    /// There are none.
    AtBeginning,
    /// Behind the byte order mark alone.
    BehindMark,
    /// Behind other pieces, of which so many characters `]` are the last, two standing for all
    /// above.
    Behind(u8),
}

/// What is kept of the place, and what is open.
#[derive(Debug, PartialEq, Eq, Hash, Drop)]
pub struct PageState {
    pub place: PagePlace,
    pub inside: OpenPiece,
}

/// A state of the reader by characters, and the first bytes of an open character.
#[derive(Debug, PartialEq, Eq, Hash, Drop)]
pub struct HeldState {
    pub state: PageState,
    pub begun: Bytes,
}

impl Exact for PageState {
    ghost exact = { exact_state };
}

impl Exact for HeldState {
    ghost exact = { exact_held };
}

impl PageState {
    /// The same once more.
    pub fn copy(&self, alloc: Global) -> Result<PageState, NoMemory>
        ensures { IfOk result (λ s. s ≡ self.now) }
    {
        Ok(PageState {
            place: self.place,
            inside: self.inside.copy(alloc)?,
        })
    }
}

impl HeldState {
    /// The same once more.
    pub fn copy(&self, alloc: Global) -> Result<HeldState, NoMemory>
        ensures { IfOk result (λ h. h ≡ self.now) }
    {
        Ok(HeldState {
            state: self.state.copy(alloc)?,
            begun: self.begun.copy(alloc)?,
        })
    }
}
