//! Images under the machines of string operations: which words they derive, with near misses.

use crate::image_words::derives;
use cfg_grammar::{Grammar, Production, Right, Symbol};
use fst_core::{IndexedTable, Out, Table, TableEnd, TableMove};
use grammar_chart::Passage;
use grammar_image::{ImageRefusal, image};
use op_system::Op;
use std::alloc::Global;
use std::test::Fail;
use string_ops::machine_of;
use text_base::{ByteRange, Bytes, NoMemory, Nt};

fn one(byte: u8) -> Symbol {
    Symbol::Range(ByteRange { lo: byte, hi: byte })
}

/// Any number of bytes of this range, and then a `b`.
fn many_and_b(alloc: Global, range: ByteRange) -> Result<Option<Grammar>, NoMemory> {
    let mut productions = Vec::new(alloc);
    productions.push(Production {
        left: Nt(0),
        right: Right::Two(Symbol::Range(range), Symbol::Nt(Nt(0))),
    })?;
    productions.push(Production {
        left: Nt(0),
        right: Right::One(one(b'b')),
    })?;
    Ok(Grammar::new(Nt(0), 1, productions))
}

/// As many `<` as `b` behind them.
fn nested(alloc: Global) -> Result<Option<Grammar>, NoMemory> {
    let mut productions = Vec::new(alloc);
    productions.push(Production {
        left: Nt(0),
        right: Right::Two(one(b'<'), Symbol::Nt(Nt(1))),
    })?;
    productions.push(Production {
        left: Nt(1),
        right: Right::Two(Symbol::Nt(Nt(0)), one(b'b')),
    })?;
    productions.push(Production {
        left: Nt(0),
        right: Right::Empty,
    })?;
    Ok(Grammar::new(Nt(0), 2, productions))
}

#[test]
fn replaced(rt: HostRuntime) -> Result<(), Fail> {
    let alloc = rt.alloc();
    let letters = ByteRange { lo: b'a', hi: b'c' };
    let Some(grammar) = many_and_b(alloc, letters)? else {
        assert!(rt; false);
        return Ok(());
    };
    let search = Bytes::from_slice(alloc, "ab".as_bytes())?;
    let with = Bytes::from_slice(alloc, "-".as_bytes())?;
    let table = IndexedTable::new(alloc, machine_of(alloc, &Op::Replace { search, with })?)?;
    let made = image(alloc, &grammar, grammar.start, &table, 1000);
    let Ok(image) = made else {
        assert!(rt; false);
        return Ok(());
    };
    assert!(rt; derives(alloc, &image.grammar, "b")?);
    assert!(rt; derives(alloc, &image.grammar, "-")?);
    assert!(rt; derives(alloc, &image.grammar, "aac-cb")?);
    assert!(rt; derives(alloc, &image.grammar, "a-b")?);
    assert!(rt; !derives(alloc, &image.grammar, "ab")?);
    assert!(rt; !derives(alloc, &image.grammar, "cab")?);
    assert!(rt; !derives(alloc, &image.grammar, "a")?);
    assert!(rt; !derives(alloc, &image.grammar, "")?);
    Ok(())
}

#[test]
fn escaped(rt: HostRuntime) -> Result<(), Fail> {
    let alloc = rt.alloc();
    let Some(grammar) = nested(alloc)? else {
        assert!(rt; false);
        return Ok(());
    };
    let table = IndexedTable::new(alloc, machine_of(alloc, &Op::Url)?)?;
    let made = image(alloc, &grammar, grammar.start, &table, 1000);
    let Ok(image) = made else {
        assert!(rt; false);
        return Ok(());
    };
    assert!(rt; derives(alloc, &image.grammar, "")?);
    assert!(rt; derives(alloc, &image.grammar, "%3Cb")?);
    assert!(rt; derives(alloc, &image.grammar, "%3C%3Cbb")?);
    assert!(rt; !derives(alloc, &image.grammar, "%3C%3Cb")?);
    assert!(rt; !derives(alloc, &image.grammar, "<b")?);
    assert!(rt; !derives(alloc, &image.grammar, "%3C")?);
    Ok(())
}

/// A limit below the items is told, and one that is met is no reason to refuse.
#[test]
fn limits(rt: HostRuntime) -> Result<(), Fail> {
    let alloc = rt.alloc();
    let Some(grammar) = nested(alloc)? else {
        assert!(rt; false);
        return Ok(());
    };
    let table = IndexedTable::new(alloc, machine_of(alloc, &Op::Same)?)?;
    assert!(rt;
        match image(alloc, &grammar, grammar.start, &table, 2) {
            Err(ImageRefusal::Large { items }) => items > 2,
            _ => false,
        }
    );
    assert!(rt; image(alloc, &grammar, grammar.start, &table, 100).is_ok());
    Ok(())
}

// A grammar of this one production.
fn one_production(alloc: Global, right: Right) -> Result<Option<Grammar>, NoMemory> {
    let mut productions = Vec::new(alloc);
    productions.push(Production { left: Nt(0), right })?;
    Ok(Grammar::new(Nt(0), 1, productions))
}

/// A limit of nothing is passed by the one byte of a page.
#[test]
fn no_items_at_all(rt: HostRuntime) -> Result<(), Fail> {
    let alloc = rt.alloc();
    let Some(grammar) = one_production(alloc, Right::One(one(b'a')))? else {
        assert!(rt; false);
        return Ok(());
    };
    let table = IndexedTable::new(alloc, machine_of(alloc, &Op::Lower)?)?;
    assert!(rt;
        match image(alloc, &grammar, grammar.start, &table, 0) {
            Err(ImageRefusal::Large { items }) => items > 0,
            _ => false,
        }
    );
    Ok(())
}

/// The small letters go through a machine of one state, which puts out each byte as it is, as one
/// range.
#[test]
fn one_range(rt: HostRuntime) -> Result<(), Fail> {
    let alloc = rt.alloc();
    let small = ByteRange { lo: b'a', hi: b'z' };
    let Some(grammar) = one_production(alloc, Right::One(Symbol::Range(small)))? else {
        assert!(rt; false);
        return Ok(());
    };
    let table = IndexedTable::new(alloc, machine_of(alloc, &Op::Same)?)?;
    let Ok(image) = image(alloc, &grammar, grammar.start, &table, 100) else {
        assert!(rt; false);
        return Ok(());
    };
    assert!(rt; has_symbol(&image.grammar, Symbol::Range(small)));
    assert!(rt; derives(alloc, &image.grammar, "m")?);
    assert!(rt; !derives(alloc, &image.grammar, "A")?);
    assert!(rt; !derives(alloc, &image.grammar, "mm")?);
    Ok(())
}

// A machine of one state that may put out each small letter as it is, or an `x`, which it offers
// twice and once more for some of the letters; and nothing at the end, which it offers twice.
fn doubled(alloc: Global, small: ByteRange) -> Result<Table, NoMemory> {
    let mut table = Table::new(alloc, 1, 0);
    let some = ByteRange { lo: b'c', hi: b'f' };
    for (range, out) in [
        (small, Out::Same),
        (small, Out::Byte(b'x')),
        (small, Out::Byte(b'x')),
        (some, Out::Byte(b'x')),
    ] {
        table.add_move(TableMove {
            from: 0,
            range,
            out: Vec::from_slice(alloc, &[out])?,
            to: 0,
        })?;
    }
    for _ in 0..2u8 {
        table.add_end(TableEnd {
            state: 0,
            out: Vec::new(alloc),
        })?;
    }
    Ok(table)
}

/// What is offered twice is written once: one production for the grammar's, one for the letters as
/// they are and one for the `x`, one for each of these two fronts, and one for the end.
#[test]
fn offered_twice(rt: HostRuntime) -> Result<(), Fail> {
    let alloc = rt.alloc();
    let small = ByteRange { lo: b'a', hi: b'z' };
    let Some(grammar) = one_production(alloc, Right::One(Symbol::Range(small)))? else {
        assert!(rt; false);
        return Ok(());
    };
    let machine = IndexedTable::new(alloc, doubled(alloc, small)?)?;
    let Ok(image) = image(alloc, &grammar, grammar.start, &machine, 100) else {
        assert!(rt; false);
        return Ok(());
    };
    assert!(rt; image.grammar.productions.len() == 6);
    assert!(rt; derives(alloc, &image.grammar, "x")?);
    assert!(rt; derives(alloc, &image.grammar, "m")?);
    assert!(rt; !derives(alloc, &image.grammar, "xx")?);
    assert!(rt; !derives(alloc, &image.grammar, "")?);
    Ok(())
}

// Whether a symbol stands in a production.
fn has_symbol(grammar: &Grammar, symbol: Symbol) -> bool {
    for production in &grammar.productions {
        let stands = match &production.right {
            Right::Empty => false,
            Right::One(a) => *a == symbol,
            Right::Two(a, b) => *a == symbol || *b == symbol,
        };
        if stands {
            return true;
        }
    }
    false
}

/// A range that the machine treats as one is kept as one.
#[test]
fn whole_ranges(rt: HostRuntime) -> Result<(), Fail> {
    let alloc = rt.alloc();
    let all = ByteRange { lo: 0, hi: 255 };
    let Some(grammar) = many_and_b(alloc, all)? else {
        assert!(rt; false);
        return Ok(());
    };
    let table = IndexedTable::new(alloc, machine_of(alloc, &Op::Same)?)?;
    let made = image(alloc, &grammar, grammar.start, &table, 1000);
    let Ok(image) = made else {
        assert!(rt; false);
        return Ok(());
    };
    assert!(rt; image.grammar.productions.len() < 12);
    assert!(rt; derives(alloc, &image.grammar, "xyzb")?);
    assert!(rt; !derives(alloc, &image.grammar, "xyz")?);
    Ok(())
}

// Two bytes `a`, each by the nonterminal 1.
fn two_letters(alloc: Global) -> Result<Option<Grammar>, NoMemory> {
    let mut productions = Vec::new(alloc);
    let letter = Symbol::Nt(Nt(1));
    productions.push(Production {
        left: Nt(0),
        right: Right::Two(letter, letter),
    })?;
    productions.push(Production {
        left: Nt(1),
        right: Right::One(one(b'a')),
    })?;
    Ok(Grammar::new(Nt(0), 2, productions))
}

// A machine that puts out the first small letter as a capital and the others as they are. It begins
// in its state 1, goes on in 0, and may end there.
fn first_raised(alloc: Global) -> Result<Table, NoMemory> {
    let mut table = Table::new(alloc, 2, 1);
    let range = ByteRange { lo: b'a', hi: b'z' };
    table.add_move(TableMove {
        from: 1,
        range,
        out: Vec::from_slice(alloc, &[Out::Shift(224)])?,
        to: 0,
    })?;
    table.add_move(TableMove {
        from: 0,
        range,
        out: Vec::from_slice(alloc, &[Out::Same])?,
        to: 0,
    })?;
    table.add_end(TableEnd {
        state: 0,
        out: Vec::new(alloc),
    })?;
    Ok(table)
}

// Whether the item stands at the place.
fn stands_at<T: PartialEq>(items: &[T], place: usize, item: &T) -> bool {
    match items.get(place) {
        Some(other) => *other == *item,
        None => false,
    }
}

/// The state in which the machine begins has the number 0, the other one 1. The first `a` is read
/// from 0 to 1, and the second from 1 to 1. Each of the three productions that are read whole stands
/// with its place, in the order in which they are read.
#[test]
fn back_to_the_grammar(rt: HostRuntime) -> Result<(), Fail> {
    let alloc = rt.alloc();
    let Some(grammar) = two_letters(alloc)? else {
        assert!(rt; false);
        return Ok(());
    };
    let machine = IndexedTable::new(alloc, first_raised(alloc)?)?;
    let Ok(image) = image(alloc, &grammar, grammar.start, &machine, 100) else {
        assert!(rt; false);
        return Ok(());
    };
    assert!(rt; derives(alloc, &image.grammar, "Aa")?);
    let states = image.states.as_slice();
    assert!(rt; states.len() == 2);
    assert!(rt; stands_at(states, 0, &1));
    assert!(rt; stands_at(states, 1, &0));
    let passages = image.passages.as_slice();
    assert!(rt; passages.len() == 5);
    for (number, (symbol, from)) in [
        (one(b'a'), 0),
        (Symbol::Nt(Nt(1)), 0),
        (one(b'a'), 1),
        (Symbol::Nt(Nt(1)), 1),
        (Symbol::Nt(Nt(0)), 0),
    ]
    .iter()
    .enumerate()
    {
        let passage = Passage {
            symbol: *symbol,
            from: *from,
            to: 1,
        };
        assert!(rt; stands_at(passages, number, &passage));
    }
    let productions = image.grammar.productions.as_slice();
    assert!(rt; productions.len() == 8);
    assert!(rt; image.sources.len() == 3);
    for (number, (left, right, place)) in [
        (2, Right::One(Symbol::Nt(Nt(1))), 1),
        (4, Right::One(Symbol::Nt(Nt(3))), 1),
        (5, Right::Two(Symbol::Nt(Nt(2)), Symbol::Nt(Nt(4))), 0),
    ]
    .iter()
    .enumerate()
    {
        let production = Production {
            left: Nt(*left),
            right: *right,
        };
        assert!(rt; stands_at(productions, number, &production));
        assert!(rt; stands_at(image.sources.as_slice(), number, place));
    }
    Ok(())
}
