//! The document type definition of XHTML 1.0 Strict.

ghost use Rattle.std.specs.Prelude.{IfOk, IfErr};
ghost use Rattle.dtd_model.specs.TableOf.{table_of};
ghost use Rattle.document_types.specs.Strict.{strict_bytes, IsStrict, IsRefused};

use crate::one_file::OneFile;
use crate::text::strict_text;
use dtd_model::{DoctypeRule, Dtd};
use dtd_reader::{DtdRefusal, read_dtd};
use std::alloc::Global;
use text_base::Bytes;

/// The name of the one file, and its folder.
const FILE_NAME: &str = "xhtml1-strict.dtd";

const FILE_ROOT: &str = ".";

/// The document type definition that a text spells, for pages that have to declare XHTML 1.0 Strict
/// (XHTML 1.0, 3.1.1).
///
/// # Errors
///
/// As `read_dtd`, for a source that holds this text under one name and no other file.
pub fn read_strict(alloc: Global, text: Bytes) -> Result<Dtd, DtdRefusal>
    ensures strict { IfOk result (λ dtd. IsStrict text (table_of dtd)) }
    ensures refused { IfErr result (IsRefused text) }
{
    let mut files = OneFile {
        name: FILE_NAME,
        text,
        misses: 0,
        reads: 0,
    };
    let dtd = read_dtd(alloc, &mut files, FILE_ROOT, FILE_NAME)?;
    Ok(Dtd {
        elements: dtd.elements,
        entities: dtd.entities,
        doctype: DoctypeRule::Strict,
    })
}

/// The document type definition of XHTML 1.0 Strict, which its built-in text spells.
///
/// # Errors
///
/// Want of memory; others as `read_dtd` on the text, of which a test shows that it refuses nothing.
pub fn strict(alloc: Global) -> Result<Dtd, DtdRefusal>
    ensures strict { IfOk result (λ dtd. IsStrict strict_bytes (table_of dtd)) }
    ensures refused { IfErr result (IsRefused strict_bytes) }
{
    let text = strict_text(alloc)?;
    read_strict(alloc, text)
}
