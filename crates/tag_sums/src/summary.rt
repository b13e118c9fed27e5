//! Summaries of token lists.

ghost use Rattle.std.specs.Prelude.{◌≡◌, ℕ, Bool, true, false, List, [], ◌∷◌, ◌++◌, IfOk};
ghost use Rattle.text_base.specs.declared.page_token.PageToken.{PageToken};

use std::alloc::Global;
use std::hash::Hash;
use text_base::{Exact, NoMemory, PageToken};

/// A summary gives each list of page tokens a sum, so that the sum of a concatenation follows
/// from the sums of its parts. Every token may stand in a list.
pub trait Summary {
    /// A sum. Two sums that `==` finds equal are one value to contracts.
    type Sum: Exact + Hash + Drop;

    /// The sum of a list of tokens.
    ghost sum_of: { Self → List PageToken → Self.Sum };

    /// The composition of two sums.
    ghost composed: { Self → Self.Sum → Self.Sum → Self.Sum };

    /// Whether no list of tokens with this sum, whatever stands round it, is whole.
    ghost is_broken: { Self → Self.Sum → Bool };

    /// Whether the lists of tokens with this sum are those that are asked for.
    ghost is_whole: { Self → Self.Sum → Bool };

    /// The number of unmatched tags.
    ghost tag_count: { Self → Self.Sum → ℕ };

    /// The sum of a concatenation is the composition of the sums.
    ghost appended: { (s : Self) (u v : List PageToken) → sum_of s (u ++ v) ≡ composed s (sum_of s u) (sum_of s v) };

    /// A broken sum stays broken,
    ghost stays_broken: { (s : Self) (a b : Self.Sum) → is_broken s a ≡ true → is_broken s (composed s a b) ≡ true };

    /// on either side,
    ghost breaks: { (s : Self) (a b : Self.Sum) → is_broken s b ≡ true → is_broken s (composed s a b) ≡ true };

    /// and is not whole.
    ghost not_whole: { (s : Self) (a : Self.Sum) → is_broken s a ≡ true → is_whole s a ≡ false };

    /// The sum of no token.
    fn unit(&self, alloc: Global) -> Result<Self::Sum, NoMemory>
        ensures { IfOk result (λ sum. sum ≡ sum_of self.now []) };

    /// The sum of one token.
    fn of_token(&self, alloc: Global, token: PageToken) -> Result<Self::Sum, NoMemory>
        ensures { IfOk result (λ sum. sum ≡ sum_of self.now (token ∷ [])) };

    /// The composition of two sums.
    fn compose(&self, alloc: Global, a: &Self::Sum, b: &Self::Sum) -> Result<Self::Sum, NoMemory>
        ensures { IfOk result (λ sum. sum ≡ composed self.now a.now b.now) };

    /// A second sum with the same value.
    fn copy(&self, alloc: Global, a: &Self::Sum) -> Result<Self::Sum, NoMemory>
        ensures { IfOk result (λ sum. sum ≡ a.now) };

    /// Whether the sum is broken.
    fn broken(&self, a: &Self::Sum) -> bool
        ensures { result ≡ is_broken self.now a.now };

    /// Whether the sum is whole.
    fn whole(&self, a: &Self::Sum) -> bool
        ensures { result ≡ is_whole self.now a.now };

    /// The number of unmatched tags, 0 for a broken sum.
    fn tags(&self, a: &Self::Sum) -> u64
        ensures { result ≡ tag_count self.now a.now };
}
