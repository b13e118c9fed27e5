//! What is open among attributes.

ghost use Rattle.std.specs.Prelude.{◌≡◌, IfOk};
ghost use Rattle.open_pieces.specs.AttributeExactness.{exact_attribute};

use crate::characters::Characters;
use crate::value::OpenValue;
use std::alloc::Global;
use text_base::{Exact, NoMemory};

/// What is open in a tag or in the XML declaration behind its whole attributes.
#[derive(Debug, PartialEq, Eq, Hash, Drop)]
pub enum OpenAttribute {
    /// Nothing, or white space (true), behind a name or a value.
    Between(bool),
    /// So much of a name, at least one character.
    Name(Characters),
    /// White space behind a name.
    BehindName(Characters),
    /// Behind the `=`, and white space.
    BehindEquals(Characters),
    /// In the value of the name, with its quote.
    Value(Characters, char, OpenValue),
}

impl Exact for OpenAttribute {
    ghost exact = { exact_attribute };
}

impl OpenAttribute {
    /// The same once more.
    pub fn copy(&self, alloc: Global) -> Result<OpenAttribute, NoMemory>
        ensures { IfOk result (λ o. o ≡ self.now) }
    {
        match self {
            OpenAttribute::Between(is_spaced) => Ok(OpenAttribute::Between(*is_spaced)),
            OpenAttribute::Name(name) => Ok(OpenAttribute::Name(name.copy(alloc)?)),
            OpenAttribute::BehindName(name) => Ok(OpenAttribute::BehindName(name.copy(alloc)?)),
            OpenAttribute::BehindEquals(name) => Ok(OpenAttribute::BehindEquals(name.copy(alloc)?)),
            OpenAttribute::Value(name, quote, value) => {
                let name = name.copy(alloc)?;
                Ok(OpenAttribute::Value(name, *quote, value.copy(alloc)?))
            }
        }
    }
}
