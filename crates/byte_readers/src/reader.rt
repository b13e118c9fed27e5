//! What a reader is.

ghost use Rattle.std.specs.Prelude.{◌≡◌, ℕ, List, IfOk};
ghost use Rattle.text_base.specs.declared.page_token.PageToken.{PageToken};
ghost use Rattle.byte_readers.specs.Reading.{emitted};

use crate::emit::Emit;
use std::alloc::Global;
use std::hash::Hash;
use text_base::{Exact, NoMemory};

/// Where a byte leads, and what is put out at it.
#[derive(Drop)]
pub struct ReaderStep<S> {
    pub to: S,
    pub emit: Emit,
}

/// A reader that goes over a text byte by byte. Where no page can come of the text any more, it
/// goes on in a state that puts out nothing.
pub trait ByteReader {
    /// Two states that `==` finds equal are one value to contracts.
    type State: Exact + Hash + Drop;

    /// The state before the text.
    ghost first: { Self → Self.State };

    /// The state behind a byte.
    ghost next: { Self → Self.State → ℕ → Self.State };

    /// The tokens that are put out at a byte.
    ghost puts: { Self → Self.State → ℕ → List PageToken };

    /// The tokens that are put out where the text ends.
    ghost lasts: { Self → Self.State → List PageToken };

    /// The same state once more.
    fn copy(&self, alloc: Global, state: &Self::State) -> Result<Self::State, NoMemory>
        ensures { IfOk result (λ s. s ≡ state.now) };

    /// The state before the text.
    fn start(&self, alloc: Global) -> Result<Self::State, NoMemory>
        ensures { IfOk result (λ s. s ≡ first self.now) };

    /// Where a byte leads, and what is put out at it.
    fn step(
        &self,
        alloc: Global,
        state: &Self::State,
        byte: u8,
    ) -> Result<ReaderStep<Self::State>, NoMemory>
        ensures to { IfOk result (λ step. step.to ≡ next self.now state.now byte) }
        ensures emit { IfOk result (λ step. emitted step.emit ≡ puts self.now state.now byte) };

    /// What is put out where the text ends.
    fn last(&self, state: &Self::State) -> Emit
        ensures { emitted result ≡ lasts self.now state.now };
}
