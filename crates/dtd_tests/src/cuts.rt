//! The built-in text, cut behind each of its bytes.

use crate::outcome::files_of;
use document_types::strict_text;
use dtd_reader::{DtdRefusal, read_dtd};
use std::alloc::Global;
use std::test::Fail;

// Whether the front of the built-in text is a definition, or none for what it holds.
fn front_is_judged(alloc: Global, front: &[u8]) -> Result<bool, Fail> {
    let mut files = files_of(alloc, [("d", front)].as_slice())?;
    Ok(match read_dtd(alloc, &mut files, ".", "d") {
        Ok(_) => true,
        Err(DtdRefusal::NotDtd { .. } | DtdRefusal::Undeclared { .. }) => true,
        Err(_) => false,
    })
}

#[test]
fn a_text_cut_at_each_byte(rt: HostRuntime) -> Result<(), Fail> {
    let whole = strict_text(rt.alloc())?;
    for length in 0..4_096 {
        let front = whole.as_slice().get(..length).ok_or("a front")?;
        assert!(rt; front_is_judged(rt.alloc(), front)?, "{length}");
    }
    Ok(())
}
