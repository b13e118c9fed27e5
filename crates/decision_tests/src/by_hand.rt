//! Grammars that are made by hand.

use crate::grammars::{grammar, outcome};
use content_automata::build;
use dtd_model::mini;
use dyck_balance::Nesting;
use segment_summary::Segments;
use std::test::Fail;
use summary_decision::decide;

// By nesting: nothing, an element, an open one; p^n P^n; p^n; p^n P; a part of which no sentence is
// left; copies of nonterminals with one sum; two sums of a nonterminal before the first sentence,
// by limits of 1 and of 9; a start tag 2^12 times, which are as many unmatched tags as may be, and
// 2^13 times, which passes that limit at the height of 14.
#[test]
fn by_nesting(rt: HostRuntime) -> Result<(), Fail> {
    let alloc = rt.alloc();
    let nesting = Nesting::new();
    let rows = [
        (b"0..".as_slice(), 9, (b'y', 0, 0)),
        (b"0pP", 9, (b'y', 0, 0)),
        (b"0p.", 9, (b'n', 0, 0)),
        (b"0p110P0..", 9, (b'y', 0, 0)),
        (b"00p0..", 9, (b'n', 0, 0)),
        (b"01P11p1p.", 9, (b'n', 0, 0)),
        (b"0..0121p.", 9, (b'y', 0, 0)),
        (b"00.011.1t2..", 9, (b'y', 0, 0)),
        (b"01P1p2234344.4..", 1, (b'y', 0, 0)),
        (b"01334.45.52.11p1p.2P.", 1, (b'p', 2, 2)),
        (b"01334.45.52.11p1p.2P.", 9, (b'n', 0, 0)),
        (
            b"01.1222333444555666777888999:::;;;<<<===p.",
            9,
            (b'n', 0, 0),
        ),
        (
            b"01.1222333444555666777888999:::;;;<<<===>>>p.",
            9,
            (b't', 8192, 14),
        ),
    ];
    for (text, limit, expected) in rows {
        let grammar = grammar(alloc, text)?.ok_or("a nonterminal is too large")?;
        let verdict = decide(alloc, &nesting, &grammar, limit)?;
        assert_eq!(rt; outcome(verdict), expected, "{text:?}");
    }
    Ok(())
}

// By the smallest document type: a page, with any number of paragraphs; a page without a body; text
// in the body.
#[test]
fn by_document_type(rt: HostRuntime) -> Result<(), Fail> {
    let alloc = rt.alloc();
    let dtd = mini(alloc)?;
    let segments = Segments::new(alloc, build(alloc, &dtd)?, &dtd)?;
    let rows = [
        (b"0h112H2b33..34B45545p66tP".as_slice(), 9, (b'n', 0, 0)),
        (b"0h112H2b334B45445.4..5p66tP", 9, (b'y', 0, 0)),
        (b"0hH", 9, (b'n', 0, 0)),
        (b"0h112H2b33tB", 9, (b'n', 0, 0)),
    ];
    for (text, limit, expected) in rows {
        let grammar = grammar(alloc, text)?.ok_or("a nonterminal is too large")?;
        let verdict = decide(alloc, &segments, &grammar, limit)?;
        assert_eq!(rt; outcome(verdict), expected, "{text:?}");
    }
    Ok(())
}
