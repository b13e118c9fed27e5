//! The names of the declared elements, in order.

ghost use Rattle.std.specs.Prelude.{◌≡◌, ◌<◌, ◌≤◌, [], ℕ, List, length, IfOk, OnErr, not};
ghost use Rattle.dtd_texts.specs.ContentModels.{element_named};
ghost use Rattle.dtd_texts.specs.Reading.{is_among, with_name};
ghost use Rattle.dtd_declarations.specs.Views.{Gives};

use crate::fault::Fault;
use indexmap::IndexSet;
use std::alloc::Global;
use std::marker::Model;
use text_base::{Bytes, Elem, NoMemory};
use xml_text::is_name;

/// The names of the declared elements, which differ, in order: at most 1,024. Contracts see the
/// list of them.
#[derive(Debug, Drop)]
pub struct Names {
    names: IndexSet<Bytes>,
}

impl Model for Names {
    ghost use Rattle.std.specs.Prelude.{ℕ, List, length, ◌≤◌};

    ghost Value = { List (List ℕ) };

    ghost view = { λ n. n.names.keys };

    ghost invariant = { λ n. length n.names.keys ≤ 1024 };
}

impl Names {
    /// No names. Takes no memory.
    pub fn new(alloc: Global) -> Names
        ensures { result ≡ [] }
    {
        Names {
            names: IndexSet::new(alloc),
        }
    }

    /// How many names there are.
    pub fn len(&self) -> usize
        ensures value { result ≡ length self.now }
        ensures few { length self.now ≤ 1024 }
    {
        self.names.len()
    }

    /// Puts a name behind the others, and says whether it is new. One that is there already stays
    /// where it is.
    pub fn put(&mut self, name: Bytes) -> Result<bool, NoMemory>
        requires { length self.old < 1024 }
        ensures new { IfOk result (λ new. new ≡ not (is_among self.old name)) }
        ensures names { IfOk result (λ new. self.new ≡ with_name self.old name) }
    {
        Ok(self.names.insert(name)?)
    }

    /// The element of this name.
    ///
    /// # Errors
    ///
    /// `Refused` where the word is no name, `Undeclared` where no element has it, and `Memory`.
    pub fn element(&self, alloc: Global, word: &[u8]) -> Result<Elem, Fault>
        ensures { Gives (λ (e : Elem). e.0) result (element_named self.now word.now) }
    {
        if !is_name(word) {
            return Err(Fault::Refused);
        }
        let name = Bytes::from_slice(alloc, word)?;
        match self.names.get_index_of(&name) {
            Some(place) => Ok(Elem(place as u16)),
            None => Err(Fault::Undeclared(name)),
        }
    }
}
