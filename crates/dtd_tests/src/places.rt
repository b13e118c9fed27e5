//! Where in a page by the smallest document type a fault shows.

use dtd_model::mini;
use page_validator::{PageRefusal, check_page};
use std::alloc::Global;
use std::test::Fail;

// None where the page is valid, else where that showed.
fn fault_of(alloc: Global, page: &[u8]) -> Result<Option<u64>, PageRefusal> {
    let dtd = mini(alloc)?;
    match check_page(alloc, &dtd, page) {
        Ok(()) => Ok(None),
        Err(PageRefusal::PageFault { at }) => Ok(Some(at)),
        Err(other) => Err(other),
    }
}

#[test]
fn trees_that_are_not_valid(rt: HostRuntime) -> Result<(), Fail> {
    for (page, at) in [
        (b"<html><body><p>x</body></html>".as_slice(), 16),
        (b"".as_slice(), 0),
        (b"x<html><body></body></html>".as_slice(), 0),
        (b"<html><body>x</body></html>".as_slice(), 12),
        (b"<html><body>&#32;</body></html>".as_slice(), 12),
        (b"<html><body><![CDATA[ ]]></body></html>".as_slice(), 12),
        (b"<html><body><p><p></p></p></body></html>".as_slice(), 15),
        (b"<html><body><b></b></body></html>".as_slice(), 12),
        (b"<html><body><p a='b'></p></body></html>".as_slice(), 12),
        (b"<html/>".as_slice(), 0),
        (b"<html></html>".as_slice(), 6),
        (b"<html><body></body><body></body></html>".as_slice(), 19),
        (b"<html><body></html></body>".as_slice(), 12),
        (b"<HTML><body></body></HTML>".as_slice(), 0),
        (b"<html><body/></html><html><body/></html>".as_slice(), 20),
        (b"<html><body/></html>x".as_slice(), 20),
        (b"<html><body/></html><!DOCTYPE html>".as_slice(), 20),
        (
            b"<!DOCTYPE html><!DOCTYPE html><html><body/></html>".as_slice(),
            15,
        ),
        (b"<body></body>".as_slice(), 0),
        (b"<html><body>".as_slice(), 12),
    ] {
        assert_eq!(rt; fault_of(rt.alloc(), page)?, Some(at));
    }
    Ok(())
}

#[test]
fn pieces_that_are_not_lawful(rt: HostRuntime) -> Result<(), Fail> {
    for (page, at) in [
        (
            b" <?xml version=\"1.0\"?><html><body/></html>".as_slice(),
            1,
        ),
        (
            b"<?xml encoding='UTF-8'?><html><body/></html>".as_slice(),
            0,
        ),
        (b"<?xml version='1.1'?><html><body/></html>".as_slice(), 0),
        (b"<?XML a?><html><body/></html>".as_slice(), 0),
        (
            b"\xEF\xBB\xBF\xEF\xBB\xBF<html><body/></html>".as_slice(),
            3,
        ),
        (b"<!DOCTYPE HTML><html><body/></html>".as_slice(), 0),
        (
            b"<!DOCTYPE html PUBLIC 'a{b' 'x'><html><body/></html>".as_slice(),
            0,
        ),
        (
            b"<!DOCTYPE html SYSTEM'x'><html><body/></html>".as_slice(),
            0,
        ),
        (
            b"<!DOCTYPE html [<!ELEMENT a ANY>]><html><body/></html>".as_slice(),
            0,
        ),
        (b"<html><body><p>a]]></p></body></html>".as_slice(), 18),
        (b"<html><body><p>a & b</p></body></html>".as_slice(), 17),
        (b"<html><body><p>&nbsp;</p></body></html>".as_slice(), 15),
        (b"<html><body><p>&#0;</p></body></html>".as_slice(), 15),
        (
            b"<html><body><p>&#x110000;</p></body></html>".as_slice(),
            15,
        ),
        (
            b"<html><body><p>&#99999999999999999999;</p></body></html>".as_slice(),
            15,
        ),
        (b"<html><body><p>&#X41;</p></body></html>".as_slice(), 15),
        (
            b"<html><body><!-- B+, B, or B---></body></html>".as_slice(),
            12,
        ),
        (b"<html><body><!-- a -- b --></body></html>".as_slice(), 12),
        (b"<html><body><?p(a)?></body></html>".as_slice(), 12),
        (b"<html><body><p>\x01</p></body></html>".as_slice(), 15),
        (
            b"<html><body><p>\xEF\xBF\xBF</p></body></html>".as_slice(),
            15,
        ),
        (b"<html><body><p>\xC3</p></body></html>".as_slice(), 15),
        (
            b"<html><body><p>\xED\xA0\x80</p></body></html>".as_slice(),
            15,
        ),
        (b"< html><body></body></html>".as_slice(), 0),
        (b"<html><body><p / ></body></html>".as_slice(), 12),
        (b"<html><body></ p></body></html>".as_slice(), 12),
        (b"<p".as_slice(), 0),
    ] {
        assert_eq!(rt; fault_of(rt.alloc(), page)?, Some(at));
    }
    Ok(())
}
