//! Sentences of derivations that the decision gives, written.

use cfg_grammar::{Grammar, Production, Right, Symbol};
use derivations::{Derivation, length, prepare, yield_into};
use dyck_balance::Nesting;
use io_edge::{MemSink, SinkFault};
use std::alloc::Global;
use std::test::Fail;
use summary_decision::{Verdict, decide};
use text_base::{ByteRange, Elem, NoMemory, Nt, PageToken};

// What 1 derives and then a start tag, where each nonterminal from 1 on is the next one twice, but
// for the last.
fn doubled(alloc: Global, times: u64, last: Right) -> Result<Option<Grammar>, NoMemory> {
    let mut productions = Vec::new(alloc);
    let tag = Symbol::Token(PageToken::Start(Elem(0)));
    productions.push(Production {
        left: Nt(0),
        right: Right::Two(Symbol::Nt(Nt(1)), tag),
    })?;
    let mut number: u64 = 1;
    for _ in 0..times {
        let next = Symbol::Nt(Nt(number.wrapping_add(1)));
        productions.push(Production {
            left: Nt(number),
            right: Right::Two(next, next),
        })?;
        number = number.wrapping_add(1);
    }
    productions.push(Production {
        left: Nt(number),
        right: last,
    })?;
    Ok(Grammar::new(Nt(0), number.wrapping_add(1), productions))
}

// The derivation of a sentence that is not nested.
fn not_nested(alloc: Global, grammar: &Grammar) -> Result<Option<Derivation>, NoMemory> {
    match decide(alloc, &Nesting::new(), grammar, 9)? {
        Verdict::No(derivation) => Ok(Some(derivation)),
        _ => Ok(None),
    }
}

// The last nonterminal is `ab`: the length of the sentence, at most the largest u64; so many bytes
// of it are written, also where that is many times what is put at once; what fits is written where
// the sink is full.
#[test]
fn first_bytes(rt: HostRuntime) -> Result<(), Fail> {
    let alloc = rt.alloc();
    let a = ByteRange::new(b'a', b'a').ok_or("no range")?;
    let b = ByteRange::new(b'b', b'b').ok_or("no range")?;
    let last = Right::Two(Symbol::Range(a), Symbol::Range(b));
    let rows = [
        (0, 2, None, 9, Ok(()), 2),
        (2, 8, None, 5, Ok(()), 5),
        (14, 32_768, None, 100_000, Ok(()), 32_768),
        (64, u64::MAX, None, 10_001, Ok(()), 10_001),
        (64, u64::MAX, None, 0, Ok(()), 0),
        (3, 16, Some(5), 9, Err(SinkFault::Failed), 5),
    ];
    for (times, long, room, most, answer, count) in rows {
        let grammar = doubled(alloc, times, last)?.ok_or("no grammar")?;
        let derivation = not_nested(alloc, &grammar)?.ok_or("no derivation")?;
        assert_eq!(rt; length(&derivation), long);
        let mut walk = prepare(alloc, &derivation)?;
        let mut sink = MemSink::new(alloc, room);
        assert_eq!(rt; yield_into(&mut walk, most, &mut sink), answer);
        assert_eq!(rt; sink.written().len(), count);
        let mut expected = b'a';
        for byte in sink.written() {
            assert_eq!(rt; *byte, expected);
            expected = if expected == b'a' { b'b' } else { b'a' };
        }
    }
    Ok(())
}

// A sentence that is empty is written at once, however often it is doubled; a walk writes the same
// again.
#[test]
fn nothing_and_again(rt: HostRuntime) -> Result<(), Fail> {
    let alloc = rt.alloc();
    let grammar = doubled(alloc, 64, Right::Empty)?.ok_or("no grammar")?;
    let derivation = not_nested(alloc, &grammar)?.ok_or("no derivation")?;
    let mut sink = MemSink::new(alloc, None);
    let mut walk = prepare(alloc, &derivation)?;
    assert_eq!(rt; yield_into(&mut walk, 7, &mut sink), Ok(()));
    assert!(rt; sink.written().is_empty());
    let a = ByteRange::new(b'a', b'a').ok_or("no range")?;
    let grammar = doubled(alloc, 2, Right::One(Symbol::Range(a)))?.ok_or("no grammar")?;
    let derivation = not_nested(alloc, &grammar)?.ok_or("no derivation")?;
    let mut walk = prepare(alloc, &derivation)?;
    assert_eq!(rt; yield_into(&mut walk, 9, &mut sink), Ok(()));
    assert_eq!(rt; yield_into(&mut walk, 3, &mut sink), Ok(()));
    assert_eq!(rt; sink.written(), b"aaaaaaa".as_slice());
    Ok(())
}
