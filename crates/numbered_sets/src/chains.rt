//! The places at which each number stands in a list, as chains through the list: from the last place
//! of a number to the one before it, and so on. They take one number for each place and one for each
//! number, however the numbers are spread; `places_by` of numbered_sets makes a list for each number. Below stand text_base and
//! numbered_sets.

ghost use Rattle.std.specs.Prelude.{◌≡◌, ◌<◌, ◌+◌, ℕ, List, [], ◌∷◌, ◌++◌, Some, length, slice_get, All, IfOk, OnOk};
ghost use Rattle.numbered_sets.specs.Chains.{AreChains};

use std::alloc::Global;
use text_base::NoMemory;

/// What stands for no place of a list.
const NO_PLACE: usize = usize::MAX;

/// The places at which numbers stand in a list.
#[derive(Debug, Drop)]
pub struct Chains {
    /// By number, the last place at which it stands; where there is none, no place of a list.
    pub last: Vec<usize>,
    /// By place, the one before it at which the same number stands; where there is none, no place of
    /// a list.
    pub before: Vec<usize>,
}

impl Chains {
    /// The chains of no numbers, through a list of nothing.
    pub fn new(alloc: Global) -> Chains
        ensures len { length result.last.items ≡ 0 }
        ensures chains { AreChains [] result.last.items result.before.items }
    {
        Chains {
            last: Vec::new(alloc),
            before: Vec::new(alloc),
        }
    }

    // One number more, which stands nowhere.
    fn add(&mut self) -> Result<(), NoMemory>
        ensures len { OnOk result (length self.new.last.items ≡ length self.old.last.items + 1) }
        ensures chains { OnOk result
            ((keys : List ℕ) → All (λ k. k < length self.old.last.items) keys
            → AreChains keys self.old.last.items self.old.before.items
            → AreChains keys self.new.last.items self.new.before.items) }
    {
        self.last.push(NO_PLACE)?;
        Ok(())
    }

    /// So many numbers more, which stand nowhere.
    pub fn widen(&mut self, count: u64) -> Result<(), NoMemory>
        ensures len { OnOk result
            (length self.new.last.items ≡ length self.old.last.items + count) }
        ensures chains { OnOk result
            ((keys : List ℕ) → All (λ k. k < length self.old.last.items) keys
            → AreChains keys self.old.last.items self.old.before.items
            → AreChains keys self.new.last.items self.new.before.items) }
    {
        self.last.reserve(count as usize)?;
        for _ in 0..count {
            self.add()?;
        }
        Ok(())
    }

    /// The last place of a number.
    pub fn last_place(&self, number: u64) -> usize
        requires { number < length self.now.last.items }
        ensures { slice_get self.now.last.items number ≡ Some result }
    {
        self.last[number as usize]
    }

    /// The place before this one at which the same number stands, or no place of a list where there is
    /// none. None where this is no place of the list.
    pub fn place_before(&self, place: usize) -> Option<usize>
        ensures { result ≡ slice_get self.now.before.items place }
    {
        self.before.get(place).copied()
    }

    /// Puts a number behind the list. In constant time.
    pub fn push(&mut self, number: u64) -> Result<(), NoMemory>
        requires { number < length self.old.last.items }
        ensures len { OnOk result (length self.new.last.items ≡ length self.old.last.items) }
        ensures chains { OnOk result
            ((keys : List ℕ) → AreChains keys self.old.last.items self.old.before.items
            → AreChains (keys ++ number ∷ []) self.new.last.items self.new.before.items) }
    {
        let place = self.before.len();
        let before = self.last[number as usize];
        self.before.push(before)?;
        self.last[number as usize] = place;
        Ok(())
    }
}

/// The chains of the numbers below the count, through a list of such numbers. Linear in both.
pub fn chains_of(alloc: Global, count: u64, keys: &[u64]) -> Result<Chains, NoMemory>
    requires { All (λ k. k < count) keys.now }
    ensures len { IfOk result (λ chains. length chains.last.items ≡ count) }
    ensures chains { IfOk result (λ chains. AreChains keys.now chains.last.items
        chains.before.items) }
{
    let mut chains = Chains::new(alloc);
    chains.widen(count)?;
    chains.before.reserve(keys.len())?;
    for key in keys {
        chains.push(*key)?;
    }
    Ok(chains)
}
