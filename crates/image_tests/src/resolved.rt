//! Systems as one grammar: which words it derives, with near misses.

use crate::all_cuts::derived;
use crate::derives;
use cfg_grammar::{Grammar, Production, Right, Symbol};
use grammar_image::ImageRefusal;
use op_bytes::circular;
use op_system::{Op, OpRule, OpSystem};
use resolving::resolve;
use std::alloc::Global;
use std::test::Fail;
use text_base::{ByteRange, Bytes, NoMemory, Nt};

fn one(byte: u8) -> Symbol {
    Symbol::Range(ByteRange { lo: byte, hi: byte })
}

fn production(left: u64, right: Right) -> Production {
    Production {
        left: Nt(left),
        right,
    }
}

/// The texts of 0 are `aa` and those of 1, which are the texts of 0 with `b` for each `aa`.
fn replaced_in_a_loop(alloc: Global) -> Result<Option<OpSystem>, NoMemory> {
    let mut productions = Vec::new(alloc);
    productions.push(Production {
        left: Nt(0),
        right: Right::Two(one(b'a'), one(b'a')),
    })?;
    productions.push(Production {
        left: Nt(0),
        right: Right::One(Symbol::Nt(Nt(1))),
    })?;
    let search = Bytes::from_slice(alloc, "aa".as_bytes())?;
    let with = Bytes::from_slice(alloc, "b".as_bytes())?;
    let mut ops = Vec::new(alloc);
    ops.push(OpRule {
        left: Nt(1),
        op: Op::Replace { search, with },
        operand: Nt(0),
    })?;
    let Some(grammar) = Grammar::new(Nt(0), 2, productions) else {
        return Ok(None);
    };
    Ok(OpSystem::new(grammar, ops, Nt(0)))
}

/// The texts of 0 are any number of `a` and a `<`, those of 1 are these escaped, and those of 2
/// these in capitals.
fn escaped_in_capitals(alloc: Global, start: u64) -> Result<Option<OpSystem>, NoMemory> {
    let mut productions = Vec::new(alloc);
    productions.push(Production {
        left: Nt(0),
        right: Right::Two(one(b'a'), Symbol::Nt(Nt(0))),
    })?;
    productions.push(Production {
        left: Nt(0),
        right: Right::One(one(b'<')),
    })?;
    let mut ops = Vec::new(alloc);
    ops.push(OpRule {
        left: Nt(2),
        op: Op::Upper,
        operand: Nt(1),
    })?;
    ops.push(OpRule {
        left: Nt(1),
        op: Op::Html,
        operand: Nt(0),
    })?;
    let Some(grammar) = Grammar::new(Nt(0), 3, productions) else {
        return Ok(None);
    };
    Ok(OpSystem::new(grammar, ops, Nt(start)))
}

/// An operation in a cycle has all texts over its bytes, and no image, so no limit.
#[test]
fn in_a_cycle(rt: HostRuntime) -> Result<(), Fail> {
    let alloc = rt.alloc();
    let Some(system) = replaced_in_a_loop(alloc)? else {
        assert!(rt; false);
        return Ok(());
    };
    let Ok(grammar) = resolve(alloc, &system, 0) else {
        assert!(rt; false);
        return Ok(());
    };
    assert!(rt; derives(alloc, &grammar, "aa")?);
    assert!(rt; derives(alloc, &grammar, "bb")?);
    assert!(rt; derives(alloc, &grammar, "")?);
    assert!(rt; derives(alloc, &grammar, "abba")?);
    assert!(rt; !derives(alloc, &grammar, "c")?);
    assert!(rt; !derives(alloc, &grammar, "abc")?);
    Ok(())
}

/// The texts of 0 are `ac` and those of 1, which are the texts of 0 with `ac` for each `c`.
fn lengthened_in_a_loop(alloc: Global) -> Result<Option<OpSystem>, NoMemory> {
    let mut productions = Vec::new(alloc);
    productions.push(production(0, Right::Two(one(b'a'), one(b'c'))))?;
    productions.push(production(0, Right::One(Symbol::Nt(Nt(1)))))?;
    let search = Bytes::from_slice(alloc, "c".as_bytes())?;
    let with = Bytes::from_slice(alloc, "ac".as_bytes())?;
    let mut ops = Vec::new(alloc);
    ops.push(OpRule {
        left: Nt(1),
        op: Op::Replace { search, with },
        operand: Nt(0),
    })?;
    let Some(grammar) = Grammar::new(Nt(0), 2, productions) else {
        return Ok(None);
    };
    Ok(OpSystem::new(grammar, ops, Nt(0)))
}

/// Of `$s = 'ac'; while (..) { $s = str_replace('c', 'ac', $s); }`: the text `cca`, which no run
/// has, is derived, by all texts over `a` and `c` as one nonterminal behind the two of the system;
/// it has a production for each of them, since they are no neighbours.
#[test]
fn derived_in_a_cycle(rt: HostRuntime) -> Result<(), Fail> {
    let alloc = rt.alloc();
    let system = lengthened_in_a_loop(alloc)?.ok_or("a system")?;
    let grammar = resolve(alloc, &system, 0).map_err(|_| "a grammar")?;
    let (a, c) = (one(b'a'), one(b'c'));
    let (looped, any) = (Symbol::Nt(Nt(1)), Symbol::Nt(Nt(2)));
    let cca = [
        production(0, Right::One(looped)),
        production(1, Right::One(any)),
        production(2, Right::Two(c, any)),
        production(2, Right::Two(c, any)),
        production(2, Right::Two(a, any)),
        production(2, Right::Empty),
    ];
    let ac = [production(0, Right::Two(a, c))];
    assert!(rt; derived(alloc, &grammar, &cca)?.as_deref() == Some(&b"cca"[..]));
    assert!(rt; derived(alloc, &grammar, &ac)?.as_deref() == Some(&b"ac"[..]));
    assert!(rt; derived(alloc, &grammar, &cca[..5])?.is_none());
    let b = [production(0, Right::One(one(b'b')))];
    assert!(rt; derived(alloc, &grammar, &b)?.is_none());
    Ok(())
}

#[test]
fn escaped(rt: HostRuntime) -> Result<(), Fail> {
    let alloc = rt.alloc();
    let Some(system) = escaped_in_capitals(alloc, 1)? else {
        assert!(rt; false);
        return Ok(());
    };
    let Ok(grammar) = resolve(alloc, &system, 1000) else {
        assert!(rt; false);
        return Ok(());
    };
    assert!(rt; derives(alloc, &grammar, "&lt;")?);
    assert!(rt; derives(alloc, &grammar, "aa&lt;")?);
    assert!(rt; !derives(alloc, &grammar, "a<")?);
    assert!(rt; !derives(alloc, &grammar, "aa")?);
    Ok(())
}

/// A replacement whose operand comes of it is in a cycle; two operations of which one stands on the
/// other are in none.
#[test]
fn cycles(rt: HostRuntime) -> Result<(), Fail> {
    let alloc = rt.alloc();
    let Some(looped) = replaced_in_a_loop(alloc)? else {
        assert!(rt; false);
        return Ok(());
    };
    assert_eq!(rt; circular(alloc, &looped)?.as_slice(), [true].as_slice());
    let Some(straight) = escaped_in_capitals(alloc, 2)? else {
        assert!(rt; false);
        return Ok(());
    };
    assert_eq!(rt;
        circular(alloc, &straight)?.as_slice(),
        [false, false].as_slice()
    );
    Ok(())
}

/// An operation stands on another whose rule comes later in the system.
#[test]
fn one_on_another(rt: HostRuntime) -> Result<(), Fail> {
    let alloc = rt.alloc();
    let Some(system) = escaped_in_capitals(alloc, 2)? else {
        assert!(rt; false);
        return Ok(());
    };
    let Ok(grammar) = resolve(alloc, &system, 1000) else {
        assert!(rt; false);
        return Ok(());
    };
    assert!(rt; derives(alloc, &grammar, "&LT;")?);
    assert!(rt; derives(alloc, &grammar, "AA&LT;")?);
    assert!(rt; !derives(alloc, &grammar, "&lt;")?);
    assert!(rt; !derives(alloc, &grammar, "A<")?);
    Ok(())
}

#[test]
fn limits(rt: HostRuntime) -> Result<(), Fail> {
    let alloc = rt.alloc();
    let Some(system) = escaped_in_capitals(alloc, 1)? else {
        assert!(rt; false);
        return Ok(());
    };
    assert!(rt;
        match resolve(alloc, &system, 0) {
            Err(ImageRefusal::Large { items }) => items > 0,
            _ => false,
        }
    );
    Ok(())
}
