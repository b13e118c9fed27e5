//! What is open in a reference and in the value of an attribute.

ghost use Rattle.std.specs.Prelude.{◌≡◌, IfOk};
ghost use Rattle.open_pieces.specs.ValueExactness.{exact_reference, exact_value};

use crate::characters::Characters;
use std::alloc::Global;
use text_base::{Exact, NoMemory};

/// What is open behind the `&` of a reference (XML 1.0, 4.1).
#[derive(Debug, PartialEq, Eq, Hash, Drop)]
pub enum OpenReference {
    /// So much of the name of an entity.
    Entity(Characters),
    /// `#`, and nothing more.
    Number,
    /// Digits that write this number, all numbers over 0x10FFFF being one.
    Decimal(u32),
    /// `#x`, and nothing more.
    HexadecimalBegin,
    /// Hexadecimal digits that write this number, all numbers over 0x10FFFF being one.
    Hexadecimal(u32),
}

impl Exact for OpenReference {
    ghost exact = { exact_reference };
}

impl OpenReference {
    /// The same once more.
    pub fn copy(&self, alloc: Global) -> Result<OpenReference, NoMemory>
        ensures { IfOk result (λ r. r ≡ self.now) }
    {
        match self {
            OpenReference::Entity(name) => Ok(OpenReference::Entity(name.copy(alloc)?)),
            OpenReference::Number => Ok(OpenReference::Number),
            OpenReference::Decimal(number) => Ok(OpenReference::Decimal(*number)),
            OpenReference::HexadecimalBegin => Ok(OpenReference::HexadecimalBegin),
            OpenReference::Hexadecimal(number) => Ok(OpenReference::Hexadecimal(*number)),
        }
    }
}

/// What is open in the quotes of a value.
#[derive(Debug, PartialEq, Eq, Hash, Drop)]
pub enum OpenValue {
    /// CDATA, outside references.
    Text,
    /// CDATA, behind a `&`.
    Reference(OpenReference),
    /// So much of a fixed value.
    Fixed(Characters),
    /// So much of the one word of a choice, and whether white space stands behind it.
    Choice(Characters, bool),
    /// Whether a name or a name token is open, and whether one stands before it.
    Words(bool, bool),
}

impl Exact for OpenValue {
    ghost exact = { exact_value };
}

impl OpenValue {
    /// The same once more.
    pub fn copy(&self, alloc: Global) -> Result<OpenValue, NoMemory>
        ensures { IfOk result (λ v. v ≡ self.now) }
    {
        match self {
            OpenValue::Text => Ok(OpenValue::Text),
            OpenValue::Reference(reference) => Ok(OpenValue::Reference(reference.copy(alloc)?)),
            OpenValue::Fixed(value) => Ok(OpenValue::Fixed(value.copy(alloc)?)),
            OpenValue::Choice(word, is_spaced) => Ok(OpenValue::Choice(
                word.copy(alloc)?,
                *is_spaced,
            )),
            OpenValue::Words(is_inside, is_one) => Ok(OpenValue::Words(*is_inside, *is_one)),
        }
    }
}
