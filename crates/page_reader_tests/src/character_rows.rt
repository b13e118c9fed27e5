//! Pages with their tokens, and texts with the states that they share.

use crate::reading::{all_say, definition, sameness};
use dtd_index::IndexedDtd;
use std::test::Fail;
use way_reader::PieceWays;

const DEFINITION: &[u8] = b"<!ELEMENT html (body)>
<!ELEMENT body (p | br)*>
<!ELEMENT p (#PCDATA)>
<!ELEMENT br EMPTY>
<!ATTLIST html xmlns CDATA #FIXED 'http://www.w3.org/1999/xhtml'>
<!ATTLIST p id ID #IMPLIED class CDATA #IMPLIED title CDATA #FIXED '\xC3\xA9\xE2\x82\xAC'>
";

// Characters of two, of three and of four bytes in each kind of piece.
#[test]
fn characters(rt: HostRuntime) -> Result<(), Fail> {
    let dtd = definition(rt.alloc(), DEFINITION)?;
    let indexed = IndexedDtd::new(rt.alloc(), &dtd)?;
    let ways = PieceWays::of_pages(rt.alloc(), &indexed)?;
    for (page, words) in [
        (
            b"<p>\xC3\xA9\xE2\x82\xAC\xF0\x9F\x98\x80</p>".as_slice(),
            b"<p text text text /p ".as_slice(),
        ),
        (
            b"<p class='\xC3\xA9\xE2\x82\xAC\xF0\x9F\x98\x80'>x".as_slice(),
            b"<p text ".as_slice(),
        ),
        (
            b"<!--\xC3\xA9-\xE2\x82\xAC-\xF0\x9F\x98\x80-->".as_slice(),
            b"misc ".as_slice(),
        ),
        (
            b"<![CDATA[\xC3\xA9]]\xE2\x82\xAC>\xF0\x9F\x98\x80]]>".as_slice(),
            b"text ".as_slice(),
        ),
        (
            b"<?a \xC3\xA9?\xE2\x82\xAC>\xF0\x9F\x98\x80?>".as_slice(),
            b"misc ".as_slice(),
        ),
        (
            b"<!DOCTYPE html SYSTEM '\xC3\xA9\xE2\x82\xAC'>".as_slice(),
            b"doctype ".as_slice(),
        ),
        (
            b"a]]\xC3\xA9>".as_slice(),
            b"text text text text text ".as_slice(),
        ),
    ] {
        assert!(rt; all_say(rt.alloc(), &indexed, &ways, page, words)?);
    }
    Ok(())
}

// Values that are compared, and places where no such character stands.
#[test]
fn compared(rt: HostRuntime) -> Result<(), Fail> {
    let dtd = definition(rt.alloc(), DEFINITION)?;
    let indexed = IndexedDtd::new(rt.alloc(), &dtd)?;
    let ways = PieceWays::of_pages(rt.alloc(), &indexed)?;
    for (page, words) in [
        (
            b"<html xmlns='http://www.w3.org/1999/xhtml'>".as_slice(),
            b"<html ".as_slice(),
        ),
        (
            b"<html xmlns='http://www.w3.org/1999/xhtm\xC3\xA9'>".as_slice(),
            b"bad ".as_slice(),
        ),
        (
            b"<p title='\xC3\xA9\xE2\x82\xAC'>".as_slice(),
            b"<p ".as_slice(),
        ),
        (
            b"<p title='\xC3\xA8\xE2\x82\xAC'>".as_slice(),
            b"bad ".as_slice(),
        ),
        (
            b"<p title='\xC3\xA9\xE1\x80\x80'>".as_slice(),
            b"bad ".as_slice(),
        ),
        (b"<p\xC3\xA9>".as_slice(), b"bad ".as_slice()),
        (b"<p id='\xC3\xA9'>".as_slice(), b"bad ".as_slice()),
        (b"&\xC3\xA9;".as_slice(), b"bad ".as_slice()),
        (
            b"<!DOCTYPE html PUBLIC '\xC3\xA9' 'b'>".as_slice(),
            b"bad ".as_slice(),
        ),
    ] {
        assert!(rt; all_say(rt.alloc(), &indexed, &ways, page, words)?);
    }
    Ok(())
}

// Bytes that are no character, and U+FFFE and U+FFFF with those beside them.
#[test]
fn faults(rt: HostRuntime) -> Result<(), Fail> {
    let dtd = definition(rt.alloc(), DEFINITION)?;
    let indexed = IndexedDtd::new(rt.alloc(), &dtd)?;
    let ways = PieceWays::of_pages(rt.alloc(), &indexed)?;
    for (page, words) in [
        (b"a\xC3".as_slice(), b"text bad ".as_slice()),
        (b"a\xC3(".as_slice(), b"text bad ".as_slice()),
        (b"a\xE2\x82".as_slice(), b"text bad ".as_slice()),
        (b"a\xE2\x82(".as_slice(), b"text bad ".as_slice()),
        (b"a\xF0\x9F\x98".as_slice(), b"text bad ".as_slice()),
        (b"a\xF0\x9F\x98(".as_slice(), b"text bad ".as_slice()),
        (b"a\xE0\x9F\x80".as_slice(), b"text bad ".as_slice()),
        (b"a\xED\xA0\x80".as_slice(), b"text bad ".as_slice()),
        (b"a\xF0\x8F\x80\x80".as_slice(), b"text bad ".as_slice()),
        (b"a\xF4\x90\x80\x80".as_slice(), b"text bad ".as_slice()),
        (b"a\xEF\xBF\xBE".as_slice(), b"text bad ".as_slice()),
        (b"a\xEF\xBF\xBF".as_slice(), b"text bad ".as_slice()),
        (b"a\xEF\xBF\xBD".as_slice(), b"text text ".as_slice()),
        (b"a\xEF\xBE\xBE".as_slice(), b"text text ".as_slice()),
        (b"a\xED\x9F\xBF".as_slice(), b"text text ".as_slice()),
        (b"a\xEE\x80\x80".as_slice(), b"text text ".as_slice()),
        (b"a\xF4\x8F\xBF\xBF".as_slice(), b"text text ".as_slice()),
        (b"<!--\xEF\xBF\xBE-->".as_slice(), b"bad ".as_slice()),
        (b"<p class='\xEF\xBF\xBF'>".as_slice(), b"bad ".as_slice()),
    ] {
        assert!(rt; all_say(rt.alloc(), &indexed, &ways, page, words)?);
    }
    Ok(())
}

#[test]
fn the_mark(rt: HostRuntime) -> Result<(), Fail> {
    let dtd = definition(rt.alloc(), DEFINITION)?;
    let indexed = IndexedDtd::new(rt.alloc(), &dtd)?;
    let ways = PieceWays::of_pages(rt.alloc(), &indexed)?;
    for (page, words) in [
        (b"\xEF\xBB\xBF<br/>".as_slice(), b"<br /br ".as_slice()),
        (b"\xEF\xBB\xBF\xEF\xBB\xBF".as_slice(), b"text ".as_slice()),
        (b"\xEF\xBC\xBF".as_slice(), b"text ".as_slice()),
        (b"\xEF\xBF\xBE".as_slice(), b"bad ".as_slice()),
        (b"\xEF\xBB".as_slice(), b"bad ".as_slice()),
    ] {
        assert!(rt; all_say(rt.alloc(), &indexed, &ways, page, words)?);
    }
    Ok(())
}

#[test]
fn states(rt: HostRuntime) -> Result<(), Fail> {
    let dtd = definition(rt.alloc(), DEFINITION)?;
    for (before, left, right, signs) in [
        (
            b"<p>".as_slice(),
            b"\xC3\xA9".as_slice(),
            b"\xD0\x90".as_slice(),
            b"==".as_slice(),
        ),
        (
            b"<p>".as_slice(),
            b"\xE2\x82\xAC".as_slice(),
            b"\xEE\x80\x80".as_slice(),
            b"===".as_slice(),
        ),
        (
            b"<p>".as_slice(),
            b"\xE0\xA0\x80".as_slice(),
            b"\xE2\x82\xAC".as_slice(),
            b".==".as_slice(),
        ),
        (
            b"<p>".as_slice(),
            b"\xEF\xBF\xBD".as_slice(),
            b"\xEF\xBE\xBD".as_slice(),
            b"=.=".as_slice(),
        ),
        (
            b"<p>".as_slice(),
            b"\xF1\x80\x80\x80".as_slice(),
            b"\xF3\xBF\xBF\xBF".as_slice(),
            b"====".as_slice(),
        ),
        (
            b"<p>".as_slice(),
            b"\xF0\x9F\x98\x80".as_slice(),
            b"\xF4\x8F\xBF\xBF".as_slice(),
            b".===".as_slice(),
        ),
        (
            b"<p class='".as_slice(),
            b"\xE2\x82\xAC".as_slice(),
            b"\xE3\x81\x82".as_slice(),
            b"===".as_slice(),
        ),
        (
            b"<p title='\xC3\xA9".as_slice(),
            b"\xE2\x82".as_slice(),
            b"\xE3\x81".as_slice(),
            b"..".as_slice(),
        ),
        (
            b"".as_slice(),
            b"\xEF\xBB\xBF".as_slice(),
            b"\xEF\xBC\xBF".as_slice(),
            b"=..".as_slice(),
        ),
    ] {
        assert_eq!(rt;
            sameness(rt.alloc(), &dtd, before, left, right)?.as_slice(),
            signs
        );
    }
    Ok(())
}
