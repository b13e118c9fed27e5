//! The entities that are open.

ghost use Rattle.std.specs.Prelude.{◌≡◌, ◌∷◌, IfOk, MatchOption, [], false, drop};
ghost use Rattle.dtd_texts.specs.Reading.{is_among};
ghost use Rattle.dtd_reader.specs.SoFar.{names, Frame};
ghost use Rattle.dtd_reader.specs.Views.{frames_of};

use dtd_entities::FileName;
use indexmap::IndexMap;
use std::alloc::Global;
use text_base::{Bytes, NoMemory};

/// A text, how much of it is passed, and the file in which it stands.
#[derive(Debug, Drop)]
pub struct Rest {
    pub text: Bytes,
    pub at: usize,
    pub file: FileName,
}

/// The open entities, each with the text behind the reference that opened it.
#[derive(Debug, Drop)]
pub struct Frames {
    pub frames: IndexMap<Bytes, Rest>,
}

impl Frames {
    /// None. Takes no memory.
    pub fn new(alloc: Global) -> Frames
        ensures { frames_of result ≡ [] }
    {
        Frames {
            frames: IndexMap::new(alloc),
        }
    }

    /// Whether an entity of this name is open.
    pub fn is_open(&self, name: &Bytes) -> bool
        ensures { result ≡ is_among (names (frames_of self.now)) name.now }
    {
        self.frames.contains_key(name)
    }

    /// Opens an entity that is not open.
    pub fn open(&mut self, name: Bytes, rest: Rest) -> Result<(), NoMemory>
        requires { is_among (names (frames_of self.old)) name ≡ false }
        ensures { IfOk result
            (λ done. frames_of self.new
            ≡ record { name = name; rest = drop rest.at rest.text; file = rest.file }
            ∷ frames_of self.old) }
    {
        self.frames.insert(name, rest)?;
        Ok(())
    }

    /// Closes the last entity.
    pub fn close(&mut self) -> Option<Rest>
        ensures { MatchOption result (frames_of self.old ≡ [])
            (λ rest. (f : Frame) × (frames_of self.old ≡ f ∷ frames_of self.new)
            × (f.rest ≡ drop rest.at rest.text) × (f.file ≡ rest.file)) }
    {
        match self.frames.pop() {
            Some((_, rest)) => Some(rest),
            None => None,
        }
    }
}
