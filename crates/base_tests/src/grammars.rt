//! Each call once, with ample memory.

use cfg_grammar::{Grammar, Production, Right, Symbol};
use std::test::Fail;
use text_base::{ByteRange, Nt, PageToken};

#[test]
fn right_sides(rt: HostRuntime) -> Result<(), Fail> {
    let letters = Symbol::Range(ByteRange { lo: 97, hi: 122 });
    let two = Right::Two(letters, Symbol::Nt(Nt(3)));
    assert_eq!(rt; two.len(), 2);
    assert_eq!(rt; two.get(1), Some(Symbol::Nt(Nt(3))));
    assert_eq!(rt; two.get(2), None);
    assert!(rt; Right::Empty.is_empty());
    let p = Production {
        left: Nt(0),
        right: two,
    };
    assert!(rt; p.is_below(4));
    assert!(rt; !p.is_below(3));
    assert!(rt; p.is_without_token());
    Ok(())
}

#[test]
fn grammars(rt: HostRuntime) -> Result<(), Fail> {
    let alloc = rt.alloc();
    let mut productions = Vec::new(alloc);
    productions.push(Production {
        left: Nt(1),
        right: Right::One(Symbol::Token(PageToken::Blank)),
    })?;
    let grammar = Grammar::new(Nt(0), 2, productions);
    assert!(rt; grammar.as_ref().is_some_and(|g| !g.is_without_token()));
    assert!(rt; Grammar::new(Nt(2), 2, Vec::new(alloc)).is_none());
    Ok(())
}
