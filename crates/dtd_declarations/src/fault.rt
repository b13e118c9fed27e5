//! Why a declaration is not read.

ghost use Rattle.std.specs.Prelude.{◌≡◌};

use text_base::{Bytes, NoMemory};

/// Why a declaration is not read.
#[derive(Debug, Drop)]
pub enum Fault {
    /// It is none of the declarations of XML 1.0.
    Refused,
    /// It is one that this project leaves out: of a notation, or with an attribute of entities or
    /// notations.
    LeftOut,
    /// Over 200 brackets are open in its content model.
    TooDeep,
    /// Its content model names this element, which is not declared.
    Undeclared(Bytes),
    /// No memory was left.
    Memory,
}

impl From<NoMemory> for Fault {
    ghost use Rattle.dtd_declarations.specs.declared.fault.Fault.TheVariants.{Memory};

    ghost from_gives = { λ _ fault. fault ≡ Memory };

    fn from(_: NoMemory) -> Self {
        Fault::Memory
    }
}
