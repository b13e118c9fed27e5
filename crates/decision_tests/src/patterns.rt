//! Whether the two pages of a grammar match an expression, with answers worked out by hand.

use crate::derivations_of::is_by;
use crate::two_pages::two_pages;
use cfg_grammar::Grammar;
use derivations::{Derivation, prepare, yield_into};
use derivatives::Arena;
use io_edge::MemSink;
use policy_matching::{Match, match_all};
use std::alloc::Global;
use std::test::Fail;
use text_base::{ByteRange, NoMemory};

// The one expression, and the other behind it.
fn then(arena: &mut Arena, x: usize, y: usize) -> Result<usize, NoMemory> {
    if !arena.is_expression(x) {
        return Err(NoMemory);
    }
    if !arena.is_expression(y) {
        return Err(NoMemory);
    }
    arena.chain(x, y)
}

// Any number of an expression.
fn many(arena: &mut Arena, x: usize) -> Result<usize, NoMemory> {
    if !arena.is_expression(x) {
        return Err(NoMemory);
    }
    arena.star(x)
}

// A text alone.
fn text(arena: &mut Arena, bytes: &[u8]) -> Result<usize, NoMemory> {
    let mut all = arena.empty()?;
    for byte in bytes {
        let one = arena.range(ByteRange {
            lo: *byte,
            hi: *byte,
        })?;
        all = then(arena, all, one)?;
    }
    Ok(all)
}

// Any text, `<ul>`, `<li>a</li>` any number of times or at least once, `</ul>`, any text.
fn lists(arena: &mut Arena, at_least_once: bool) -> Result<usize, NoMemory> {
    let byte = arena.range(ByteRange { lo: 0, hi: 255 })?;
    let any = many(arena, byte)?;
    let item = text(arena, b"<li>a</li>".as_slice())?;
    let items = many(arena, item)?;
    let items = if at_least_once {
        then(arena, item, items)?
    } else {
        items
    };
    let close = text(arena, b"</ul>".as_slice())?;
    let close = then(arena, close, any)?;
    let items = then(arena, items, close)?;
    let open = text(arena, b"<ul>".as_slice())?;
    let open = then(arena, open, items)?;
    then(arena, any, open)
}

// Lists of one item and of none.
fn pages(alloc: Global) -> Result<Option<Grammar>, NoMemory> {
    two_pages(
        alloc,
        b"<body><ul>".as_slice(),
        b"<li>a</li></ul></body>".as_slice(),
        b"</ul></body>".as_slice(),
    )
}

fn answer(
    alloc: Global,
    grammar: &Grammar,
    at_least_once: bool,
    items: u64,
) -> Result<Match, NoMemory> {
    let mut arena = Arena::new(alloc);
    let root = lists(&mut arena, at_least_once)?;
    if !arena.is_expression(root) {
        return Err(NoMemory);
    }
    match_all(alloc, grammar, &mut arena, root, items)
}

fn missed(answer: Match) -> Option<Derivation> {
    match answer {
        Match::Miss(derivation) => Some(derivation),
        _ => None,
    }
}

#[test]
fn all_match(rt: HostRuntime) -> Result<(), Fail> {
    let alloc = rt.alloc();
    let grammar = pages(alloc)?.ok_or("no grammar")?;
    assert!(rt; matches!(answer(alloc, &grammar, false, 100_000)?, Match::All));
    Ok(())
}

#[test]
fn one_misses(rt: HostRuntime) -> Result<(), Fail> {
    let alloc = rt.alloc();
    let grammar = pages(alloc)?.ok_or("no grammar")?;
    let derivation = missed(answer(alloc, &grammar, true, 100_000)?).ok_or("no miss")?;
    assert!(rt; is_by(&grammar, &derivation));
    let mut walk = prepare(alloc, &derivation)?;
    let mut sink = MemSink::new(alloc, None);
    assert_eq!(rt; yield_into(&mut walk, 100, &mut sink), Ok(()));
    assert_eq!(rt; sink.written(), b"<body><ul></ul></body>".as_slice());
    Ok(())
}

#[test]
fn a_limit(rt: HostRuntime) -> Result<(), Fail> {
    let alloc = rt.alloc();
    let grammar = pages(alloc)?.ok_or("no grammar")?;
    let is_over = match answer(alloc, &grammar, true, 3)? {
        Match::Items { count } => count > 3,
        _ => false,
    };
    assert!(rt; is_over);
    Ok(())
}
