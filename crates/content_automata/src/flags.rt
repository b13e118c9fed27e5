//! A set of positions.

ghost use Rattle.std.specs.Prelude.{◌≡◌, ◌&&◌, ◌+◌, ◌∷◌, [], ℕ, true, length, IfOk};
ghost use Rattle.std.proofs.Common.{rules};
ghost use Rattle.std.specs.Bool.{beq};
ghost use Rattle.std.specs.Cmp.Rules.{comparing};
ghost use Rattle.std.specs.Cmp.Lexicographic.{pointwise};
ghost use Rattle.content_automata.specs.Sets.{has_end, members, set_of};
ghost use Rattle.content_automata.specs.Ascending.{Ascends};
ghost use Rattle.content_automata.specs.Flags.{exact_flags, alike, fed_members};

use std::alloc::Global;
use std::hash::{Hash, Hasher};
use std::marker::Model;
use text_base::{Exact, NoMemory};

/// A set of positions of a content model. Contracts see it as a list of flags: one for the end
/// of the model, and then one for each position. It takes memory for its members alone.
#[derive(Debug, Drop)]
pub struct Flags {
    end: bool,
    count: usize,
    members: Vec<usize>,
}

impl Model for Flags {
    ghost use Rattle.std.specs.Prelude.{Bool, List};
    ghost use Rattle.content_automata.specs.Sets.{set_of};
    ghost use Rattle.content_automata.specs.Ascending.{Ascends};

    ghost Value = { List Bool };

    ghost view = { λ f. set_of f.count (record { positions = f.members.items; whole = f.end }) };

    ghost invariant = { λ f. Ascends 0 f.count f.members.items };
}

fn all_three(a: bool, b: bool, c: bool) -> bool
    ensures { result ≡ ((a && b) && c) }
{
    a && b && c
}

impl PartialEq for Flags {
    ghost eq = { pointwise beq };

    ghost laws = { Prim.search (comparing, rules) };

    fn eq(&self, other: &Flags) -> bool {
        let same_end = self.end == other.end;
        let same_count = self.count == other.count;
        let same_members = self.members.as_slice() == other.members.as_slice();
        all_three(same_end, same_count, same_members)
    }
}

impl Eq for Flags {
    ghost laws = { Prim.search (comparing, rules) };
}

impl Hash for Flags {
    ghost hash_input = { fed_members };

    ghost respects_eq = { alike fed_members };

    fn hash<H: Hasher>(&self, state: &mut H) {
        self.members.as_slice().hash(state);
    }
}

impl Exact for Flags {
    ghost exact = { exact_flags };
}

impl Flags {
    /// The set of these positions of so many, and of the end where it is said.
    pub(crate) fn new(whole: bool, count: usize, members: Vec<usize>) -> Flags
        requires { Ascends 0 count members.items }
        ensures { result ≡ set_of count (record { positions = members.items; whole = whole }) }
    {
        Flags {
            end: whole,
            count,
            members,
        }
    }

    /// The set of the end alone, of no positions. Takes no memory.
    pub fn end_alone(alloc: Global) -> Flags
        ensures { result ≡ true ∷ [] }
    {
        Flags {
            end: true,
            count: 0,
            members: Vec::new(alloc),
        }
    }

    /// A second one.
    pub fn copy(&self, alloc: Global) -> Result<Flags, NoMemory>
        ensures { IfOk result (λ f. f ≡ self.now) }
    {
        Ok(Flags {
            end: self.end,
            count: self.count,
            members: Vec::from_slice(alloc, self.members.as_slice())?,
        })
    }

    /// Whether the end is in the set.
    pub fn has_end(&self) -> bool
        ensures { result ≡ has_end self.now }
    {
        self.end
    }

    /// The positions in the set, ascending.
    pub fn members(&self) -> &[usize]
        ensures members { result.now ≡ members self.now }
        ensures ascends { (n : ℕ) → length self.now ≡ n + 1 → Ascends 0 n result.now }
    {
        self.members.as_slice()
    }
}
