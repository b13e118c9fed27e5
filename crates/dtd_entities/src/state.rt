//! What is known behind some of the text.

ghost use Rattle.std.specs.Prelude.{◌≤◌};

use crate::file_name::FileName;
use indexmap::{IndexMap, IndexSet};
use text_base::Bytes;

/// Where the reading stands.
#[derive(Clone, Copy, Debug)]
pub enum Mode {
    /// Between declarations.
    Between,
    InComment,
    /// Behind the target of an instruction.
    BehindTarget,
    InInstruction,
    /// In a declaration, and whether a literal stands in it.
    Inside(bool),
    /// In a literal of a declaration.
    InLiteral,
    /// In the value of an entity.
    InValue,
    /// Behind the value of an entity.
    BehindValue,
}

/// What a parameter entity stands for: a text, or the text of a file, by its name as it is meant in
/// the file of the definition.
#[derive(Debug, Drop)]
pub enum Source {
    Internal(Bytes),
    External(FileName),
}

/// A declaration of an element, of attributes or of a notation.
#[derive(Debug, Drop)]
pub struct Written {
    /// Its text from behind `<!` to its `>`, with all references replaced.
    pub text: Bytes,
    /// How many bytes of the replaced text stand before it.
    pub at: u64,
}

/// What is known behind some of the text.
#[derive(Debug, Drop)]
pub struct Reading {
    pub mode: Mode,
    /// The text of the declaration so far, or the value of the entity.
    pub text: Bytes,
    /// Of an entity whose value is read: whether it is a parameter entity, and its name.
    pub is_parameter: bool,
    pub name: Bytes,
    /// The quote that ends the literal or the value.
    pub quote: u8,
    /// How many entities were opened in the value and are open still.
    pub depth: u64,
    pub parameters: IndexMap<Bytes, Source>,
    pub generals: IndexSet<Bytes>,
    pub written: Vec<Written>,
    /// How many bytes the replaced text has.
    pub length: u64,
    /// How many it had where the reading last stood between declarations.
    pub begun: u64,
    /// How many references were replaced.
    pub references: u64,
    /// How many bytes of byte order marks and text declarations of entities were passed over.
    pub passed: u64,
    /// The file in which the text stands: its name as it is meant in the file of the definition, and
    /// none for that file itself.
    pub file: FileName,
    pub ghost bounded: { depth ≤ references },
}

/// The move at the head: so many bytes on, a reference with a name of so many bytes, something that
/// is left out, or none.
#[derive(Clone, Copy, Debug)]
pub enum Move {
    On(usize),
    Opens(usize),
    Omits,
    Stuck,
}
