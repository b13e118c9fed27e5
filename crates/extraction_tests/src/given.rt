//! The grammar of given texts, on words and near misses (The Unicode Standard, table 3-7; XML 1.0,
//! 2.2).

use crate::words::derives;
use given_texts::given_texts;
use std::test::Fail;

/// Texts of XML's characters, and bytes that are none.
const TEXTS: [(&[u8], bool); 18] = [
    (b"", true),
    (b"a<b", true),
    (b"\t\n\r ", true),
    (b"\x0C", false),
    (b"\x7F", true),
    (b"\x80", false),
    (b"\xC3\xA9!", true),
    (b"\xC3", false),
    (b"\xC1\xBF", false),
    (b"\xE0\x9F\xBF", false),
    (b"\xE0\xA0\x80", true),
    (b"\xED\x9F\xBF", true),
    (b"\xED\xA0\x80", false),
    (b"\xEF\xBF\xBD", true),
    (b"\xEF\xBF\xBE", false),
    (b"\xF0\x8F\xBF\xBF", false),
    (b"\xF4\x8F\xBF\xBF", true),
    (b"\xF4\x90\x80\x80", false),
];

/// Integers as decimal forms, and texts that are none.
const INTEGERS: [(&[u8], bool); 9] = [
    (b"0", true),
    (b"-7", true),
    (b"120", true),
    (b"", false),
    (b"-", false),
    (b"-0", false),
    (b"01", false),
    (b"+1", false),
    (b"1 ", false),
];

#[test]
fn texts(rt: HostRuntime) -> Result<(), Fail> {
    let alloc = rt.alloc();
    let given = given_texts(alloc)?;
    let productions = given.grammar.productions.as_slice();
    for row in TEXTS.as_slice() {
        let is_text = derives(alloc, productions, given.grammar.start.0, row.0)?;
        assert_eq!(rt; is_text, row.1);
    }
    Ok(())
}

#[test]
fn integers(rt: HostRuntime) -> Result<(), Fail> {
    let alloc = rt.alloc();
    let given = given_texts(alloc)?;
    let productions = given.grammar.productions.as_slice();
    for row in INTEGERS.as_slice() {
        let is_integer = derives(alloc, productions, given.integer.0, row.0)?;
        assert_eq!(rt; is_integer, row.1);
    }
    Ok(())
}
