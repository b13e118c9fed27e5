//! What is open in a document type declaration.

ghost use Rattle.std.specs.Prelude.{◌≡◌, IfOk};
ghost use Rattle.open_pieces.specs.DoctypeExactness.{exact_doctype};

use crate::characters::Characters;
use std::alloc::Global;
use text_base::{Exact, NoMemory};

/// Which word stands behind `html`.
#[derive(Clone, Copy, Debug, PartialEq, Eq, Hash)]
pub enum DoctypeWord {
    /// `SYSTEM`.
    System,
    /// `PUBLIC`.
    Public,
}

/// What is open behind `<!DOCTYPE` (XML 1.0, 2.8; XHTML 1.0, 3.1.1).
#[derive(Debug, PartialEq, Eq, Hash, Drop)]
pub enum OpenDoctype {
    /// Nothing, or white space (true).
    BeforeRoot(bool),
    /// So much of `html`, at least one character.
    Root(Characters),
    /// White space behind `html`.
    BehindRoot,
    /// So much of `SYSTEM` or `PUBLIC`, at least one character.
    Word(Characters),
    /// White space behind the word.
    BehindWord(DoctypeWord),
    /// In the public literal, with its quote, where the definition does not name it.
    FreePublic(char),
    /// In the public literal, with its quote, and so much of it.
    KeptPublic(char, Characters),
    /// Nothing, or white space (true), behind the public literal.
    BehindPublic(bool),
    /// In the system literal, with its quote.
    System(char),
    /// Behind the system literal.
    BehindSystem,
}

impl Exact for OpenDoctype {
    ghost exact = { exact_doctype };
}

impl OpenDoctype {
    /// The same once more.
    pub fn copy(&self, alloc: Global) -> Result<OpenDoctype, NoMemory>
        ensures { IfOk result (λ o. o ≡ self.now) }
    {
        match self {
            OpenDoctype::BeforeRoot(is_spaced) => Ok(OpenDoctype::BeforeRoot(*is_spaced)),
            OpenDoctype::Root(name) => Ok(OpenDoctype::Root(name.copy(alloc)?)),
            OpenDoctype::BehindRoot => Ok(OpenDoctype::BehindRoot),
            OpenDoctype::Word(word) => Ok(OpenDoctype::Word(word.copy(alloc)?)),
            OpenDoctype::BehindWord(word) => Ok(OpenDoctype::BehindWord(*word)),
            OpenDoctype::FreePublic(quote) => Ok(OpenDoctype::FreePublic(*quote)),
            OpenDoctype::KeptPublic(quote, text) => Ok(OpenDoctype::KeptPublic(
                *quote,
                text.copy(alloc)?,
            )),
            OpenDoctype::BehindPublic(is_spaced) => Ok(OpenDoctype::BehindPublic(*is_spaced)),
            OpenDoctype::System(quote) => Ok(OpenDoctype::System(*quote)),
            OpenDoctype::BehindSystem => Ok(OpenDoctype::BehindSystem),
        }
    }
}
