//! Texts by characters.

ghost use Rattle.std.specs.Prelude.{◌≡◌, ◌∷◌, [], ◌++◌, ◌↔◌, ℕ, List, IfOk, IsTrue, OnOk, nat_eq};
ghost use Rattle.std.proofs.Common.{rules};
ghost use Rattle.std.specs.Hash as fed;
ghost use Rattle.std.specs.Cmp.Rules.{comparing, hashing};
ghost use Rattle.std.specs.Cmp.Lexicographic.{pointwise};
ghost use Rattle.text_base.specs.Exactness.{exact_bytes};

use std::alloc::Global;
use std::hash::{Hash, Hasher};
use std::marker::Model;
use text_base::{Exact, NoMemory};

/// A text by its characters. Contracts see it as the list of their code points; equality and hash
/// are those of that list.
#[derive(Debug, Drop)]
pub struct Characters {
    characters: Vec<char>,
}

impl Model for Characters {
    ghost use Rattle.std.specs.Prelude.{ℕ, List};

    ghost Value = { List ℕ };

    ghost view = { λ c. c.characters.items };
}

impl PartialEq for Characters {
    ghost eq = { pointwise nat_eq };

    ghost laws = { Prim.search (comparing, rules) };

    fn eq(&self, other: &Characters) -> bool {
        self.characters.as_slice() == other.characters.as_slice()
    }
}

impl Eq for Characters {
    ghost laws = { Prim.search (comparing, rules) };
}

impl Hash for Characters {
    ghost hash_input = { fed.slice fed.char };

    ghost respects_eq = { Prim.search (hashing, rules) };

    fn hash<H: Hasher>(&self, state: &mut H) {
        self.characters.hash(state);
    }
}

impl Exact for Characters {
    ghost exact = { exact_bytes };
}

impl Characters {
    /// No characters. Takes no memory.
    pub fn new(alloc: Global) -> Characters
        ensures { result ≡ [] }
    {
        Characters {
            characters: Vec::new(alloc),
        }
    }

    /// The same characters once more.
    pub fn copy(&self, alloc: Global) -> Result<Characters, NoMemory>
        ensures { IfOk result (λ c. c ≡ self.now) }
    {
        Ok(Characters {
            characters: Vec::from_slice(alloc, self.characters.as_slice())?,
        })
    }

    /// The characters.
    pub fn as_slice(&self) -> &[char]
        ensures { result.now ≡ self.now }
    {
        self.characters.as_slice()
    }

    /// Whether there is no character.
    pub fn is_empty(&self) -> bool
        ensures { IsTrue result ↔ (self.now ≡ []) }
    {
        self.characters.is_empty()
    }

    /// Puts a character at the end.
    pub fn push(&mut self, character: char) -> Result<(), NoMemory>
        ensures { OnOk result (self.new ≡ self.old ++ character ∷ []) }
    {
        self.characters.push(character)?;
        Ok(())
    }

    /// These characters, and one more.
    pub fn with(&self, alloc: Global, character: char) -> Result<Characters, NoMemory>
        ensures { IfOk result (λ c. c ≡ self.now ++ character ∷ []) }
    {
        let mut more = self.copy(alloc)?;
        more.push(character)?;
        Ok(more)
    }
}
