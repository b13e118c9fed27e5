//! The pairs that are found, each with a node of a derivation.

ghost use Rattle.std.specs.Prelude.{◌≡◌};
ghost use Rattle.std.proofs.Common.{rules};
ghost use Rattle.summary_decision.specs.Joints.{taken_count};

use derivations::Nodes;
use indexmap::IndexSet;
use numbered_sets::Chains;
use std::hash::Hash;
use text_base::Exact;

/// A pair by the numbers of its nonterminal and its sum.
#[derive(Clone, Copy, Debug, PartialEq, Eq, Hash)]
pub struct Entry {
    pub nonterminal: u64,
    pub sum: u64,
}

impl Exact for Entry {
    ghost exact = { Prim.search rules };
}

/// Two sums by their numbers, to be composed in this order.
#[derive(Clone, Copy, Debug, PartialEq, Eq, Hash)]
pub struct Join {
    pub first: u64,
    pub second: u64,
}

impl Exact for Join {
    ghost exact = { Prim.search rules };
}

/// The pairs in the order in which they are found, which is that of the least heights of their
/// derivations.
#[derive(Drop)]
pub struct Table<T: Exact + Hash + Drop> {
    /// Each sum once.
    pub sums: IndexSet<T>,
    /// Each two sums of pairs that were composed.
    pub joins: IndexSet<Join>,
    /// The number of the composition of each two of these.
    pub joined: Vec<u64>,
    pub entries: IndexSet<Entry>,
    /// The node at the place of each entry.
    pub nodes: Nodes,
    /// How many entries each nonterminal has.
    pub counts: Vec<u64>,
    /// The height of derivations up to which all pairs are found.
    pub height: u64,
    /// How many entries there are of at most that height.
    pub bound: usize,
}

/// The pairs that are taken up, which are the first ones: chains of their places by their
/// nonterminals.
#[derive(Drop)]
pub struct Taken {
    pub chains: Chains,
}

impl Taken {
    /// How many pairs are taken up.
    pub fn count(&self) -> usize
        ensures { result ≡ taken_count self.now }
    {
        self.chains.before.len()
    }
}
