//! Where in a deep page a fault shows.

use dtd_model::Dtd;
use dtd_reader::read_dtd;
use io_edge::MemFiles;
use page_validator::{PageRefusal, check_page};
use std::alloc::{AllocError, Global};
use std::test::Fail;
use text_base::Bytes;

// The definition that a text spells.
fn definition(alloc: Global, text: &[u8]) -> Result<Dtd, Fail> {
    let mut held = Vec::new(alloc);
    held.push((
        Bytes::from_slice(alloc, b"d")?,
        Bytes::from_slice(alloc, text)?,
    ))?;
    let mut files = MemFiles::new(held, Vec::new(alloc));
    Ok(read_dtd(alloc, &mut files, ".", "d")?)
}

// So many times these bytes, behind others.
fn push_times(page: &mut Vec<u8>, bytes: &[u8], times: u32) -> Result<(), AllocError> {
    for _ in 0..times {
        page.extend_from_slice(bytes)?;
    }
    Ok(())
}

// So many times these bytes, between others.
fn repeated(
    alloc: Global,
    before: &[u8],
    middle: &[u8],
    times: u32,
    behind: &[u8],
) -> Result<Vec<u8>, AllocError> {
    let mut page = Vec::new(alloc);
    page.extend_from_slice(before)?;
    push_times(&mut page, middle, times)?;
    page.extend_from_slice(behind)?;
    Ok(page)
}

// A page with so many elements in one another, and with so many end tags.
fn nested(alloc: Global, elements: u32, ends: u32) -> Result<Vec<u8>, AllocError> {
    let mut page = repeated(alloc, b"<html>", b"<div>", elements, b"<p>a</p>")?;
    push_times(&mut page, b"</div>", ends)?;
    page.extend_from_slice(b"</html>")?;
    Ok(page)
}

// 300,000 elements stand in one another. Where one end tag is missing the last one shows it, where
// all are, the end of the page.
#[test]
fn deep_pages(rt: HostRuntime) -> Result<(), Fail> {
    let dtd = definition(
        rt.alloc(),
        b"<!ELEMENT html (div)><!ELEMENT div (div|p)*><!ELEMENT p (#PCDATA)>",
    )?;
    let whole = nested(rt.alloc(), 300_000, 300_000)?;
    assert_eq!(rt; check_page(rt.alloc(), &dtd, whole.as_slice()), Ok(()));
    let one_less = nested(rt.alloc(), 300_000, 299_999)?;
    assert_eq!(rt;
        check_page(rt.alloc(), &dtd, one_less.as_slice()),
        Err(PageRefusal::PageFault {
            at: 6 + 300_000 * 5 + 8 + 299_999 * 6
        })
    );
    let open = repeated(rt.alloc(), b"<html>", b"<div>", 300_000, b"")?;
    assert_eq!(rt;
        check_page(rt.alloc(), &dtd, open.as_slice()),
        Err(PageRefusal::PageFault {
            at: 6 + 300_000 * 5
        })
    );
    Ok(())
}
