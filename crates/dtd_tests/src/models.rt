//! Content models read from definitions, and which children fit them by XML 1.0 (3.2 and 3.2.1).

use content_automata::{ContentRefusal, Contents, build};
use dtd_model::Dtd;
use dtd_reader::read_dtd;
use io_edge::MemFiles;
use std::alloc::{AllocError, Global};
use std::test::Fail;
use text_base::{Bytes, Elem};

// The definition in this text.
fn read(alloc: Global, text: &str) -> Result<Dtd, Fail> {
    let mut held = Vec::new(alloc);
    held.push((
        Bytes::from_slice(alloc, b"d")?,
        Bytes::from_slice(alloc, text.as_bytes())?,
    ))?;
    let mut files = MemFiles::new(held, Vec::new(alloc));
    Ok(read_dtd(alloc, &mut files, ".", "d")?)
}

// The automata of a definition, and the state that its first element begins in.
fn begun(alloc: Global, dtd: &Dtd) -> Result<Option<(Contents, u16)>, ContentRefusal> {
    let contents = build(alloc, dtd)?;
    match dtd.elements.as_slice() {
        [] => Ok(None),
        [_, ..] => {
            let first = contents.init(Elem(0));
            Ok(Some((contents, first)))
        }
    }
}

// Whether these children fit, each a letter; `-` stands for none.
fn fit(contents: &Contents, first: u16, children: &str) -> bool {
    let mut state = first;
    for letter in children.as_bytes() {
        let child = match letter {
            b'a' => Elem(1),
            b'b' => Elem(2),
            b'c' => Elem(3),
            _ => continue,
        };
        match contents.step(state, child) {
            Some(next) => state = next,
            None => return false,
        }
    }
    contents.accepts(state)
}

// Whether the children in a row fit its model where the row says so, and there alone.
fn row_is_so(alloc: Global, row: &str) -> Result<bool, Fail> {
    let Some((model, more)) = row.split_once(" ") else {
        return Ok(false);
    };
    let Some((children, answer)) = more.split_once(" ") else {
        return Ok(false);
    };
    let text = format!(in alloc;
        "<!ELEMENT r {model}><!ELEMENT a EMPTY><!ELEMENT b EMPTY><!ELEMENT c EMPTY>"
    )?;
    let dtd = read(alloc, text.as_str())?;
    match begun(alloc, &dtd)? {
        None => Ok(false),
        Some((contents, first)) => Ok(fit(&contents, first, children) == (answer == "yes")),
    }
}

#[test]
fn children(rt: HostRuntime) -> Result<(), Fail> {
    let rows = "EMPTY - yes\nEMPTY a no\nANY - yes\nANY abc yes
(#PCDATA) - yes\n(#PCDATA) a no\n(#PCDATA|a)* aa yes\n(#PCDATA|a)* b no
(a,b) ab yes\n(a,b) a no\n(a,b) - no\n(a,b) abb no\n(a,b) ba no
(a|b) a yes\n(a|b) b yes\n(a|b) ab no\n(a|b) - no
(a|b)* - yes\n(a|b)* abba yes\n(a|b)* abc no
(a|b)+ - no\n(a|b)+ ba yes\n(a|b)? - yes\n(a|b)? ab no
(a?,b) b yes\n(a?,b) ab yes\n(a?,b) aab no
(a*,b+,c?) b yes\n(a*,b+,c?) aabbc yes\n(a*,b+,c?) aac no\n(a*,b+,c?) abcc no
((a,b)|(a,c)) ab yes\n((a,b)|(a,c)) ac yes\n((a,b)|(a,c)) aa no
((a|b)*,a,(a|b)) aab yes\n((a|b)*,a,(a|b)) ba no\n((a|b)*,a,(a|b)) bbaa yes
((a?)*,b) aab yes\n((a?)*,b) aa no";
    for row in rows.lines() {
        assert!(rt; row_is_so(rt.alloc(), row)?, "{row}");
    }
    Ok(())
}

// An element with so many children in a row, of 1,023 further elements.
fn row_of(alloc: Global, items: u64) -> Result<String, AllocError> {
    let mut text = String::from_str(alloc, "<!ELEMENT r (e0")?;
    for number in 1..items {
        text.push_str(format!(in alloc; ",e{}", number % 1023)?.as_str())?;
    }
    text.push_str(")>")?;
    for number in 0..1023 {
        text.push_str(format!(in alloc; "<!ELEMENT e{number} EMPTY>")?.as_str())?;
    }
    Ok(text)
}

// Each of the 1,024 elements has a state, and the row one more for each item.
#[test]
fn long_rows(rt: HostRuntime) -> Result<(), Fail> {
    let dtd = read(rt.alloc(), row_of(rt.alloc(), 3_072)?.as_str())?;
    assert_eq!(rt; build(rt.alloc(), &dtd)?.len(), 4_096);
    let dtd = read(rt.alloc(), row_of(rt.alloc(), 4_000)?.as_str())?;
    match build(rt.alloc(), &dtd) {
        Err(ContentRefusal::Limit { count }) => assert!(rt; count > 4_096),
        _ => assert!(rt; false),
    }
    Ok(())
}
