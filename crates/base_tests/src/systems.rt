//! Each call once, with ample memory.

use cfg_grammar::{Grammar, Production, Right, Symbol};
use op_system::{Op, OpRule, OpSystem};
use std::test::Fail;
use text_base::{ByteRange, Bytes, Nt, PageToken};

#[test]
fn copies_are_equal(rt: HostRuntime) -> Result<(), Fail> {
    let alloc = rt.alloc();
    let op = Op::Replace {
        search: Bytes::from_slice(alloc, b"aa")?,
        with: Bytes::from_slice(alloc, b"b")?,
    };
    assert!(rt; op.copy(alloc)? == op);
    let cut = Op::Cut {
        start: -2,
        len: None,
    };
    assert!(rt; cut.copy(alloc)? == cut);
    assert!(rt;
        cut.copy(alloc)?
            != Op::Cut {
                start: -2,
                len: Some(0)
            }
    );
    Ok(())
}

#[test]
fn systems(rt: HostRuntime) -> Result<(), Fail> {
    let alloc = rt.alloc();
    let mut productions = Vec::new(alloc);
    productions.push(Production {
        left: Nt(0),
        right: Right::One(Symbol::Range(ByteRange { lo: 1, hi: 2 })),
    })?;
    let grammar = Grammar::new(Nt(0), 2, productions);
    let Some(grammar) = grammar else {
        assert!(rt; false);
        return Ok(());
    };
    let mut ops = Vec::new(alloc);
    ops.push(OpRule {
        left: Nt(1),
        op: Op::Html,
        operand: Nt(0),
    })?;
    assert!(rt; OpSystem::new(grammar, ops, Nt(1)).is_some());
    let mut tokens = Vec::new(alloc);
    tokens.push(Production {
        left: Nt(0),
        right: Right::One(Symbol::Token(PageToken::Text)),
    })?;
    if let Some(grammar) = Grammar::new(Nt(0), 1, tokens) {
        assert!(rt; OpSystem::new(grammar, Vec::new(alloc), Nt(0)).is_none());
    }
    Ok(())
}
