//! Sets of states.

ghost use Rattle.std.specs.Prelude.{◌≡◌, ℕ, Bool, List, IfOk};
ghost use Rattle.std.proofs.Common.{rules};
ghost use Rattle.std.specs.Hash as fed;
ghost use Rattle.std.specs.Cmp.Rules.{comparing, hashing};
ghost use Rattle.std.specs.Cmp.Lexicographic.{pointwise};
ghost use Rattle.std.specs.Bool.{beq};
ghost use Rattle.tag_sums.specs.Sum.{has};
ghost use Rattle.segment_summary.specs.Decided.{states_alike};

use std::alloc::Global;
use std::hash::{Hash, Hasher};
use std::marker::Model;
use text_base::NoMemory;

/// For each state, whether it is in the set.
#[derive(Debug, Drop)]
pub struct StateSet {
    pub(crate) bits: Vec<bool>,
}

impl Model for StateSet {
    ghost use Rattle.std.specs.Prelude.{Bool, List};

    ghost Value = { List Bool };

    ghost view = { λ a. a.bits.items };
}

impl PartialEq for StateSet {
    ghost eq = { pointwise beq };

    ghost laws = { Prim.search (comparing, rules) };

    fn eq(&self, other: &StateSet) -> bool {
        self.bits.as_slice() == other.bits.as_slice()
    }
}

impl Eq for StateSet {
    ghost laws = { Prim.search (comparing, rules) };
}

impl Hash for StateSet {
    ghost hash_input = { fed.slice fed.bool };

    ghost respects_eq = { states_alike };

    fn hash<H: Hasher>(&self, state: &mut H) {
        self.bits.hash(state);
    }
}

impl StateSet {
    /// Whether the state is in the set.
    pub fn has(&self, state: u16) -> bool
        ensures { result ≡ has self.now state }
    {
        match self.bits.get(state as usize) {
            Some(bit) => *bit,
            None => false,
        }
    }

    /// A second set with the same states.
    pub fn copy(&self, alloc: Global) -> Result<StateSet, NoMemory>
        ensures { IfOk result (λ s. s ≡ self.now) }
    {
        Ok(StateSet {
            bits: self.bits.as_slice().to_vec(alloc)?,
        })
    }
}
