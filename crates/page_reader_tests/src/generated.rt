//! Generated pages: whole pieces and their fragments in any order, by a row of numbers that looks
//! drawn. All readers and the lexer put out over each of them what a plain reading piece by piece gives.

use crate::by_pieces::words_by_pieces;
use crate::reading::{all_say, definition};
use dtd_index::IndexedDtd;
use rand_core::utils::NextWord;
use rand_pcg::Pcg32;
use std::alloc::Global;
use std::test::Fail;
use text_base::{Bytes, NoMemory};
use way_reader::PieceWays;

const DEFINITION: &[u8] = b"<!ELEMENT html (body)>
<!ELEMENT body (p | br)*>
<!ELEMENT p (#PCDATA)>
<!ELEMENT br EMPTY>
<!ATTLIST p id ID #IMPLIED class CDATA #IMPLIED align (left | right) #IMPLIED lang CDATA #FIXED 'en'>
<!ENTITY nbsp '&#160;'>
";

/// Pieces of pages, and fragments of them.
const FRAGMENTS: [&str; 72] = [
    "<html>",
    "</html>",
    "<body>",
    "</body>",
    "<p>",
    "</p>",
    "<br/>",
    "<br />",
    "</br\n>",
    "<b>",
    "<p id='a'>",
    "<p id=\"b\" class='c'>",
    "<p align='left'>",
    "<p align = ' right '/>",
    "<p lang='en'>",
    "<p lang='de'>",
    "<p id='a' id='b'>",
    "<p class='&lt;&#233;'>",
    "<p ",
    "<p",
    "<",
    "</",
    "</p",
    "id",
    "id=",
    "class='",
    "'",
    "\"",
    "=",
    "/>",
    ">",
    " ",
    "\n",
    "\t",
    "a",
    "p",
    "br",
    "]",
    "]]",
    "]]>",
    "&",
    "&amp;",
    "&lt",
    ";",
    "&nbsp;",
    "&copy;",
    "&#65;",
    "&#x10FFFF;",
    "&#x110000;",
    "&#0;",
    "&#x",
    "41",
    "<!--",
    "-->",
    "--",
    "-",
    "<!-- a -->",
    "<?",
    "?>",
    "<?a b?>",
    "<?xml ",
    "<?xml version='1.0'?>",
    "version=\"1.0\"",
    "<![CDATA[",
    "<![CDATA[<b>]]>",
    "<!DOCTYPE html>",
    "<!DOCTYPE ",
    "PUBLIC 'a' \"b\"",
    "\u{E9}",
    "\u{20AC}",
    "\u{1F600}",
    "\u{FEFF}",
];

// A page of one to twelve fragments.
fn generated(alloc: Global, numbers: &mut Pcg32) -> Result<String, NoMemory> {
    let mut page = String::new(alloc);
    let count = numbers.next_word() % 12 + 1;
    for _ in 0..count {
        let place = numbers.next_word() as usize % FRAGMENTS.len();
        page.push_str(FRAGMENTS[place])?;
    }
    Ok(page)
}

#[test]
fn readers_agree_with_pieces(rt: HostRuntime) -> Result<(), Fail> {
    let alloc = rt.alloc();
    let dtd = definition(alloc, DEFINITION)?;
    let indexed = IndexedDtd::new(alloc, &dtd)?;
    let ways = PieceWays::of_pages(alloc, &indexed)?;
    let mut numbers = Pcg32::new(2026, 11);
    let mut lawful = 0u32;
    for _ in 0..4000u32 {
        let page = generated(alloc, &mut numbers)?;
        let characters: Vec<char> = page.chars().collect(alloc)?;
        let words = words_by_pieces(alloc, &dtd, characters.as_slice())?;
        assert!(rt; all_say(alloc, &indexed, &ways, page.as_bytes(), words.as_slice())?);
        lawful = lawful.saturating_add(if words.as_slice().ends_with(b"bad ") {
            0
        } else {
            1
        });
    }
    assert!(rt; lawful > 400);
    Ok(())
}
