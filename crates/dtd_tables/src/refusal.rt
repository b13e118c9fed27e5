//! Why declarations make no table.

use text_base::{Bytes, NoMemory};

/// Why declarations make no table.
#[derive(Debug, Drop)]
pub enum TableRefusal {
    /// An element of this name is declared twice.
    Twice(Bytes),
    /// A content model names this element, which is not declared.
    Undeclared(Bytes),
    /// What begins at this place is no declaration of XML 1.0.
    Refused(u64),
    /// What begins at this place is left out by this project.
    LeftOut(u64),
    /// Over 1,024 elements, 64 attributes of an element, or 200 open brackets in a content model:
    /// at least so many.
    Limit(u64),
    /// No memory was left.
    Memory,
}

impl From<NoMemory> for TableRefusal {
    ghost use Rattle.std.specs.Prelude.{◌≡◌};
    ghost use Rattle.dtd_tables.specs.declared.refusal.TableRefusal.TheVariants.{Memory};

    ghost from_gives = { λ _ refusal. refusal ≡ Memory };

    fn from(_: NoMemory) -> Self {
        TableRefusal::Memory
    }
}
