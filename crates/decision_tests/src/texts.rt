//! Grammars of bytes, trimmed and written.

use cfg_grammar::{Grammar, Production, Right, Symbol};
use derivations::write_grammar;
use io_edge::{MemSink, SinkFault};
use std::alloc::Global;
use std::test::Fail;
use text_base::{ByteRange, NoMemory, Nt};
use useful_nonterminals::trim;

// 2 is a small letter and then 0, or 3; 0 is nothing, 1 is `b`; the start is 2.
fn letters(alloc: Global) -> Result<Option<Grammar>, NoMemory> {
    let Some(small) = ByteRange::new(b'a', b'z') else {
        return Ok(None);
    };
    let Some(b) = ByteRange::new(b'b', b'b') else {
        return Ok(None);
    };
    let mut productions = Vec::new(alloc);
    for (left, right) in [
        (2, Right::Two(Symbol::Range(small), Symbol::Nt(Nt(0)))),
        (0, Right::Empty),
        (1, Right::One(Symbol::Range(b))),
        (2, Right::One(Symbol::Nt(Nt(3)))),
    ] {
        productions.push(Production {
            left: Nt(left),
            right,
        })?;
    }
    Ok(Grammar::new(Nt(2), 4, productions))
}

// The start is written as 0, and 0 as the start; 1 is not reached and 3 derives nothing, so what is
// trimmed has neither, and the numbers of the others are 0 and 1. What fits is written where the
// sink is full.
#[test]
fn lines(rt: HostRuntime) -> Result<(), Fail> {
    let alloc = rt.alloc();
    let grammar = letters(alloc)?.ok_or("no grammar")?;
    let mut sink = MemSink::new(alloc, None);
    assert_eq!(rt; write_grammar(&grammar, &mut sink), Ok(()));
    assert_eq!(rt;
        sink.written(),
        b"n0 = 61-7a n2\nn2 =\nn1 = 62-62\nn0 = n3\n".as_slice()
    );
    let trimmed = trim(alloc, &grammar)?;
    let mut sink = MemSink::new(alloc, None);
    assert_eq!(rt; write_grammar(&trimmed, &mut sink), Ok(()));
    assert_eq!(rt; sink.written(), b"n0 = 61-7a n1\nn1 =\n".as_slice());
    let mut sink = MemSink::new(alloc, Some(4));
    assert_eq!(rt; write_grammar(&trimmed, &mut sink), Err(SinkFault::Failed));
    assert_eq!(rt; sink.written(), b"n0 =".as_slice());
    Ok(())
}
