//! Why a document type has no definition.

ghost use Rattle.std.specs.Prelude.{◌≡◌};
ghost use Rattle.document_types.specs.declared.refusal.DefinitionRefusal.TheVariants.{Memory};

use dtd_reader::DtdRefusal;
use text_base::NoMemory;
use thiserror::Error;

/// Why a document type has no definition.
#[derive(Debug, PartialEq, Eq, Drop, Error)]
pub enum DefinitionRefusal {
    /// The files of the definition spell none, or are not read.
    #[error("the document type definition is refused")]
    File(DtdRefusal),
    /// The built-in text is refused.
    #[error("the built-in document type definition is refused")]
    BuiltIn(DtdRefusal),
    /// No memory was left.
    #[error("out of memory")]
    Memory,
}

impl From<NoMemory> for DefinitionRefusal {
    ghost from_gives = { λ _ refusal. refusal ≡ Memory };

    fn from(_: NoMemory) -> Self {
        DefinitionRefusal::Memory
    }
}
