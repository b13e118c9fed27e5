//! XHTML 1.0 Strict, built in.

use crate::outcome::{files_of, table_line};
use crate::w3c::W3C_STRICT;
use document_types::{strict, strict_text};
use dtd_model::{DoctypeRule, Dtd};
use dtd_reader::{DtdRefusal, read_dtd};
use std::alloc::Global;
use std::test::Fail;

// The definition that the W3C's declarations spell.
fn by_the_w3c(alloc: Global) -> Result<Dtd, DtdRefusal> {
    let mut files = files_of(alloc, [("w", W3C_STRICT.as_bytes())].as_slice())?;
    read_dtd(alloc, &mut files, ".", "w")
}

#[test]
fn strict_is_that_of_the_w3c(rt: HostRuntime) -> Result<(), Fail> {
    let mut found = strict(rt.alloc())?;
    assert_eq!(rt; found.elements.len(), 77);
    assert_eq!(rt; found.entities.len(), 253);
    assert_eq!(rt; found.doctype, DoctypeRule::Strict);
    let expected = by_the_w3c(rt.alloc())?;
    assert_eq!(rt; expected.entities.len(), 0);
    let line = table_line(rt.alloc(), &found)?;
    let start = table_line(rt.alloc(), &expected)?;
    assert!(rt; line.as_str().starts_with(start.as_str()));
    Ok(())
}

#[test]
fn strict_as_a_text(rt: HostRuntime) -> Result<(), Fail> {
    let text = strict_text(rt.alloc())?;
    assert_eq!(rt; text.len(), 13500);
    assert!(rt;
        text.as_slice()
            .starts_with(b"<!ENTITY % I \"CDATA #IMPLIED\">\n")
    );
    assert!(rt; text.as_slice().ends_with(b"<!ENTITY diams \"?\">\n"));
    Ok(())
}
