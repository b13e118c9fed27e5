//! Why a document type definition is not read.

use text_base::{Bytes, NoMemory};
use thiserror::Error;

/// Why a document type definition is not read. Places are counted in bytes of the text in which all
/// references are replaced.
#[derive(Debug, PartialEq, Eq, Drop, Error)]
pub enum DtdRefusal {
    /// The source has no such file: the definition, or an external parameter entity of it.
    #[error("a file of the document type definition is missing")]
    Missing { name: Bytes },
    /// The source failed at this file.
    #[error("a file of the document type definition cannot be read")]
    ReadFault { name: Bytes },
    /// The definition asks for this file, which lies outside of the root.
    #[error("a file of the document type definition lies outside of the root")]
    Outside { name: Bytes },
    /// The file has over 1,048,576 bytes, at least `len`.
    #[error("a file of the document type definition has {len} bytes or more")]
    TooLong { name: Bytes, len: u64 },
    /// What begins at this place is no declaration, comment or instruction (XML 1.0, 2.8): the
    /// first place of which this holds.
    #[error("no document type definition stands at {at}")]
    NotDtd { at: u64 },
    /// A parameter entity of this name is referred to, which is not declared so far, or which is
    /// open (XML 1.0, 4.1).
    #[error("a parameter entity is not declared, or refers to itself")]
    Entity { name: Bytes },
    /// An element of this name is declared twice (XML 1.0, 3.2).
    #[error("an element is declared twice")]
    Twice { name: Bytes },
    /// A content model names this element, which is not declared.
    #[error("a content model names an element that is not declared")]
    Undeclared { name: Bytes },
    /// What begins at this place is left out by this project: a conditional section, a notation, an
    /// attribute of entities or notations, an external general entity, or a general entity whose
    /// value holds markup or references to entities.
    #[error("what stands at {at} is left out")]
    LeftOut { at: u64 },
    /// A limit is passed: there are `count` elements, attributes of an element, values of an
    /// attribute, open brackets in a content model, bytes of the replaced text with those of text
    /// declarations, or references replaced, or more. The limits are 1,024, 64, 1,024, 200,
    /// 4,194,304 and 4,194,304.
    #[error("the document type definition is too large: {count}")]
    Limit { count: u64 },
    /// No memory was left.
    #[error("out of memory")]
    Memory,
}

impl From<NoMemory> for DtdRefusal {
    ghost use Rattle.std.specs.Prelude.{◌≡◌};
    ghost use Rattle.dtd_reader.specs.declared.refusal.DtdRefusal.TheVariants.{Memory};

    ghost from_gives = { λ _ refusal. refusal ≡ Memory };

    fn from(_: NoMemory) -> Self {
        DtdRefusal::Memory
    }
}
