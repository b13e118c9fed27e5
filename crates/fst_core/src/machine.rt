//! What a machine is.

ghost use Rattle.std.specs.Prelude.{◌≡◌, ℕ, ◌≤◌, ◌↔◌, List, IfOk, IsTrue, All};
ghost use Rattle.std.specs.List.{list_all};
ghost use Rattle.text_base.specs.ByteRange.{InRange};
ghost use Rattle.text_base.specs.declared.letter.Letter.{Letter};
ghost use Rattle.fst_core.specs.Offers.{Offers, OffersLast, IsWithin};
ghost use Rattle.fst_core.specs.Fits.{is_fixed};

use crate::out::Out;
use std::alloc::Global;
use std::hash::Hash;
use text_base::{ByteRange, Exact, NoMemory};

/// A move of a machine: by each byte of the range to a state.
#[derive(Drop)]
pub struct Move<S> {
    pub range: ByteRange,
    pub out: Vec<Out>,
    pub to: S,
}

/// A machine that reads bytes and puts out bytes and page tokens. It may have several moves by one
/// byte, and moves that put out nothing; every move reads one byte.
pub trait Machine {
    /// Two states that `==` finds equal are one value to contracts.
    type State: Exact + Hash + Drop;

    /// The state in which a run begins.
    ghost first: { Self → Self.State };

    /// By the byte the machine may go from the one state to the other and put out the letters.
    ghost steps: { Self → Self.State → ℕ → Self.State → List Letter → Type 0 };

    /// In the state the text may end, and the letters are put out then.
    ghost ends: { Self → Self.State → List Letter → Type 0 };

    /// The state is one that the machine gives.
    ghost gives: { Self → Self.State → Type 0 };

    /// The same state once more.
    fn copy(&self, alloc: Global, state: &Self::State) -> Result<Self::State, NoMemory>
        requires { gives self.now state.now }
        ensures { IfOk result (λ s. s ≡ state.now) };

    /// The state in which a run begins.
    fn start(&self, alloc: Global) -> Result<Self::State, NoMemory>
        ensures first { IfOk result (λ s. s ≡ first self.now) }
        ensures given { IfOk result (λ s. gives self.now s) };

    /// The moves from a state by the bytes of a range: for each of the bytes, the moves that the
    /// machine has by that byte.
    fn moves(
        &self,
        alloc: Global,
        state: &Self::State,
        range: ByteRange,
    ) -> Result<Vec<Move<Self::State>>, NoMemory>
        requires { gives self.now state.now }
        ensures exact { IfOk result (λ moves. (byte : ℕ) → InRange range byte
            → (t : Self.State) (letters : List Letter)
            → Offers moves.items byte t letters ↔ steps self.now state.now byte t letters) }
        ensures within { IfOk result (λ moves. All (IsWithin range) moves.items) }
        ensures given { IfOk result (λ moves. All (λ m. gives self.now m.to) moves.items) };

    /// What may be put out where the text ends in this state; nothing where it may not end there.
    /// No `Same` and no `Shift` stands in it.
    fn last(&self, alloc: Global, state: &Self::State) -> Result<Vec<Vec<Out>>, NoMemory>
        requires { gives self.now state.now }
        ensures exact { IfOk result (λ lasts. (letters : List Letter)
            → OffersLast lasts.items letters ↔ ends self.now state.now letters) }
        ensures fixed { IfOk result
            (λ lasts. All (λ out. IsTrue (list_all is_fixed out.items)) lasts.items) };
}
