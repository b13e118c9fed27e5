//! References by number with their tokens, and numbers that share states.

use crate::reading::{all_say, definition, sameness};
use dtd_index::IndexedDtd;
use std::test::Fail;
use way_reader::PieceWays;

const DEFINITION: &[u8] = b"<!ELEMENT p (#PCDATA)>
<!ATTLIST p class CDATA #IMPLIED>
";

// The first and last numbers of characters (XML 1.0, 2.2), and leading zeros.
#[test]
fn characters_by_number(rt: HostRuntime) -> Result<(), Fail> {
    let dtd = definition(rt.alloc(), DEFINITION)?;
    let indexed = IndexedDtd::new(rt.alloc(), &dtd)?;
    let ways = PieceWays::of_pages(rt.alloc(), &indexed)?;
    for page in [
        b"&#9;".as_slice(),
        b"&#10;".as_slice(),
        b"&#0013;".as_slice(),
        b"&#32;".as_slice(),
        b"&#55295;".as_slice(),
        b"&#57344;".as_slice(),
        b"&#65533;".as_slice(),
        b"&#65536;".as_slice(),
        b"&#1114111;".as_slice(),
        b"&#x9;".as_slice(),
        b"&#x00d;".as_slice(),
        b"&#x20;".as_slice(),
        b"&#xD7ff;".as_slice(),
        b"&#xE000;".as_slice(),
        b"&#xFFFD;".as_slice(),
        b"&#x10000;".as_slice(),
        b"&#x10FFFF;".as_slice(),
    ] {
        assert!(rt; all_say(rt.alloc(), &indexed, &ways, page, b"text ")?);
    }
    Ok(())
}

// Numbers that are no character's.
#[test]
fn other_numbers(rt: HostRuntime) -> Result<(), Fail> {
    let dtd = definition(rt.alloc(), DEFINITION)?;
    let indexed = IndexedDtd::new(rt.alloc(), &dtd)?;
    let ways = PieceWays::of_pages(rt.alloc(), &indexed)?;
    for page in [
        b"&#0;".as_slice(),
        b"&#8;".as_slice(),
        b"&#11;".as_slice(),
        b"&#31;".as_slice(),
        b"&#55296;".as_slice(),
        b"&#57343;".as_slice(),
        b"&#65534;".as_slice(),
        b"&#65535;".as_slice(),
        b"&#1114112;".as_slice(),
        b"&#x0;".as_slice(),
        b"&#xC;".as_slice(),
        b"&#xD800;".as_slice(),
        b"&#xDFFF;".as_slice(),
        b"&#xFFFE;".as_slice(),
        b"&#x110000;".as_slice(),
    ] {
        assert!(rt; all_say(rt.alloc(), &indexed, &ways, page, b"bad ")?);
    }
    Ok(())
}

// Behind which digits two numbers are in one state: where the same digits, or none, make characters
// of both or of neither.
#[test]
fn shared_states(rt: HostRuntime) -> Result<(), Fail> {
    let dtd = definition(rt.alloc(), DEFINITION)?;
    for (before, left, right, signs) in [
        (
            b"<p>".as_slice(),
            b"&#200;".as_slice(),
            b"&#300;".as_slice(),
            b"==.===".as_slice(),
        ),
        (
            b"<p>".as_slice(),
            b"&#55;".as_slice(),
            b"&#54;".as_slice(),
            b"===.=".as_slice(),
        ),
        (
            b"<p>".as_slice(),
            b"&#xE9;".as_slice(),
            b"&#x2F;".as_slice(),
            b"======".as_slice(),
        ),
        (
            b"<p>".as_slice(),
            b"&#233;".as_slice(),
            b"&#x33".as_slice(),
            b"==...".as_slice(),
        ),
        (
            b"<p class='".as_slice(),
            b"&#65532;".as_slice(),
            b"&#65533;".as_slice(),
            b"========".as_slice(),
        ),
        (
            b"<p class='".as_slice(),
            b"&#65533".as_slice(),
            b"&#65534".as_slice(),
            b"======.".as_slice(),
        ),
    ] {
        assert_eq!(rt;
            sameness(rt.alloc(), &dtd, before, left, right)?.as_slice(),
            signs
        );
    }
    Ok(())
}
