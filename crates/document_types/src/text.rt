//! The text of XHTML 1.0 Strict.

ghost use Rattle.std.specs.Prelude.{◌≡◌, IfOk};
ghost use Rattle.document_types.specs.Strict.{strict_bytes};

use crate::declarations::DECLARATIONS;
use crate::entities::ENTITIES;
use std::alloc::Global;
use text_base::{Bytes, NoMemory};

/// The text of a document type definition of XHTML 1.0 Strict: its 77 elements, written after the
/// W3C's, and its 253 entities.
pub fn strict_text(alloc: Global) -> Result<Bytes, NoMemory>
    ensures { IfOk result (λ text. text ≡ strict_bytes) }
{
    let mut text = Bytes::from_slice(alloc, DECLARATIONS.as_bytes())?;
    text.append(ENTITIES.as_bytes())?;
    Ok(text)
}
