//! Pages with their tokens.

use crate::reading::{all_say, both_say_in_pieces, definition};
use document_types::strict;
use dtd_index::IndexedDtd;
use std::test::Fail;
use way_reader::PieceWays;

const DEFINITION: &[u8] = b"<!ELEMENT html (body)>
<!ELEMENT body (p | br)*>
<!ELEMENT p (#PCDATA)>
<!ELEMENT br EMPTY>
<!ATTLIST p id ID #IMPLIED class CDATA #IMPLIED align (left | right) #IMPLIED lang CDATA #FIXED 'en'>
<!ENTITY nbsp '&#160;'>
";

#[test]
fn content(rt: HostRuntime) -> Result<(), Fail> {
    let dtd = definition(rt.alloc(), DEFINITION)?;
    let indexed = IndexedDtd::new(rt.alloc(), &dtd)?;
    let ways = PieceWays::of_pages(rt.alloc(), &indexed)?;
    for (page, words) in [
        (b"".as_slice(), b"".as_slice()),
        (
            b"<html><body><p>x</p></body></html>".as_slice(),
            b"<html <body <p text /p /body /html ".as_slice(),
        ),
        (
            b"<p> a<!-- b --><?c d?>&amp;&#65;&nbsp;<![CDATA[<e>]]></p >".as_slice(),
            b"<p _ text misc misc text text text text /p ".as_slice(),
        ),
        (
            b"<br/><br /><br></br\n>".as_slice(),
            b"<br /br <br /br <br /br ".as_slice(),
        ),
        (
            b"a]] >]".as_slice(),
            b"text text text _ text text ".as_slice(),
        ),
        (b"a]]>b".as_slice(), b"text text text bad ".as_slice()),
        (
            b"\xE2\x82\xAC\t\xF0\x9F\x98\x80".as_slice(),
            b"text _ text ".as_slice(),
        ),
        (
            b"<p>&#x10FFFF;<![CDATA[]]]]></p>".as_slice(),
            b"<p text text /p ".as_slice(),
        ),
        (
            b"<!-- --><p>a &lt;</p>".as_slice(),
            b"misc <p text _ text /p ".as_slice(),
        ),
    ] {
        assert!(rt; all_say(rt.alloc(), &indexed, &ways, page, words)?);
    }
    Ok(())
}

#[test]
fn prologs(rt: HostRuntime) -> Result<(), Fail> {
    let dtd = definition(rt.alloc(), DEFINITION)?;
    let indexed = IndexedDtd::new(rt.alloc(), &dtd)?;
    let ways = PieceWays::of_pages(rt.alloc(), &indexed)?;
    for (page, words) in [
        (
            b"\xEF\xBB\xBF<?xml version=\"1.0\"?>\n<!DOCTYPE html>\n<!-- a --><html/>".as_slice(),
            b"_ doctype _ misc <html /html ".as_slice(),
        ),
        (
            b"<?xml version='1.0' encoding='utf-8' standalone = \"no\" ?><br/>".as_slice(),
            b"<br /br ".as_slice(),
        ),
        (
            b"<!DOCTYPE html PUBLIC '-//a//b' \"c\" > <?xmla b?>".as_slice(),
            b"doctype _ misc ".as_slice(),
        ),
        (b" <?xml version=\"1.0\"?>".as_slice(), b"_ bad ".as_slice()),
        (
            b"<?xml version='1.0'?><?xml version='1.0'?>".as_slice(),
            b"bad ".as_slice(),
        ),
        (b"<?XML a?>".as_slice(), b"bad ".as_slice()),
        (b"\xEF\xBB\xBF\xEF\xBB\xBF".as_slice(), b"text ".as_slice()),
        (b"<!doctype html>".as_slice(), b"bad ".as_slice()),
        (b"<!DOCTYPE p>".as_slice(), b"bad ".as_slice()),
    ] {
        assert!(rt; all_say(rt.alloc(), &indexed, &ways, page, words)?);
    }
    Ok(())
}

#[test]
fn attributes(rt: HostRuntime) -> Result<(), Fail> {
    let dtd = definition(rt.alloc(), DEFINITION)?;
    let indexed = IndexedDtd::new(rt.alloc(), &dtd)?;
    let ways = PieceWays::of_pages(rt.alloc(), &indexed)?;
    for (page, words) in [
        (
            b"<p id=\"a\" class = 'b>&lt;\xC3\xA9' align=' left ' lang='en'>".as_slice(),
            b"<p ".as_slice(),
        ),
        (b"<p id='a' id='b'>x".as_slice(), b"bad ".as_slice()),
        (b"<p class='a'class='b'>".as_slice(), b"bad ".as_slice()),
        (
            b"<p class=\"x\" class=\"x\">".as_slice(),
            b"bad ".as_slice(),
        ),
        (b"<p id='a b'>".as_slice(), b"bad ".as_slice()),
        (b"<p align='top'>".as_slice(), b"bad ".as_slice()),
        (b"<p lang='de'>".as_slice(), b"bad ".as_slice()),
        (b"<p class='<'>".as_slice(), b"bad ".as_slice()),
        (b"<p class='&b;'>".as_slice(), b"bad ".as_slice()),
        (b"<p style='a'>".as_slice(), b"bad ".as_slice()),
        (b"<br id='a'/>".as_slice(), b"bad ".as_slice()),
        (b"<p / >".as_slice(), b"bad ".as_slice()),
    ] {
        assert!(rt; all_say(rt.alloc(), &indexed, &ways, page, words)?);
    }
    Ok(())
}

#[test]
fn faults(rt: HostRuntime) -> Result<(), Fail> {
    let dtd = definition(rt.alloc(), DEFINITION)?;
    let indexed = IndexedDtd::new(rt.alloc(), &dtd)?;
    let ways = PieceWays::of_pages(rt.alloc(), &indexed)?;
    for (page, words) in [
        (b"x<p".as_slice(), b"text bad ".as_slice()),
        (b"x&am".as_slice(), b"text bad ".as_slice()),
        (b"x<!-- a --".as_slice(), b"text bad ".as_slice()),
        (b"<!-- a -- b -->".as_slice(), b"bad ".as_slice()),
        (b"a\xFFb".as_slice(), b"text bad ".as_slice()),
        (b"a\xC3".as_slice(), b"text bad ".as_slice()),
        (b"a\xED\xA0\x80".as_slice(), b"text bad ".as_slice()),
        (b"a\x00b".as_slice(), b"text bad ".as_slice()),
        (b"<b>".as_slice(), b"bad ".as_slice()),
        (b"</b>".as_slice(), b"bad ".as_slice()),
        (b"< p>".as_slice(), b"bad ".as_slice()),
        (b"&copy;".as_slice(), b"bad ".as_slice()),
        (b"&#0;&#65;".as_slice(), b"bad ".as_slice()),
        (b"&#x110000;".as_slice(), b"bad ".as_slice()),
        (b"&".as_slice(), b"bad ".as_slice()),
    ] {
        assert!(rt; all_say(rt.alloc(), &indexed, &ways, page, words)?);
    }
    Ok(())
}

/// Cut in two at any byte, within every kind of piece, a page has the tokens that it has as a whole.
#[test]
fn in_two_pieces(rt: HostRuntime) -> Result<(), Fail> {
    let dtd = definition(rt.alloc(), DEFINITION)?;
    for (page, words) in [
        (
            b"\xEF\xBB\xBF<?xml version='1.0'?><!DOCTYPE html PUBLIC '-//a' \"b\"><!-- c -->".as_slice(),
            b"doctype misc ".as_slice(),
        ),
        (
            b"<p class='a&lt;\xC3\xA9' id = \"b\" >c &#x41;&amp;<![CDATA[d]]>\xE2\x82\xAC<?e f?></p >".as_slice(),
            b"<p text _ text text text text misc /p ".as_slice(),
        ),
        (
            b"<br/>a]]<p id='a' id='b'>c</p>".as_slice(),
            b"<br /br text text text bad ".as_slice(),
        ),
        (
            b"<!-- --><p>a &lt;</p>".as_slice(),
            b"misc <p text _ text /p ".as_slice(),
        ),
    ] {
        assert!(rt; both_say_in_pieces(rt.alloc(), &dtd, page, words)?);
    }
    // By XHTML 1.0 Strict, where `p` has `class` and `title`, and is one of the further elements.
    let dtd = strict(rt.alloc())?;
    for (page, words) in [
        (
            b"<p class=\"x\" class=\"x\">".as_slice(),
            b"bad ".as_slice(),
        ),
        (
            b"<p class=\"x\" title=\"x\">".as_slice(),
            b"<other ".as_slice(),
        ),
        (
            b"<!-- --><p>a &lt;</p>".as_slice(),
            b"misc <other text _ text /other ".as_slice(),
        ),
    ] {
        assert!(rt; both_say_in_pieces(rt.alloc(), &dtd, page, words)?);
    }
    Ok(())
}
