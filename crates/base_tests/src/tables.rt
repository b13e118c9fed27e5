//! Tables as machines: which texts one relates, and the moves that it offers.

ghost use Rattle.std.specs.Prelude.{◌≡◌, ◌<◌};

use fst_core::{IndexedTable, Machine, Out, Table, TableEnd, TableMove, applies};
use std::alloc::Global;
use std::test::Fail;
use text_base::{ByteRange, NoMemory, PageToken};

/// Every byte.
const ALL: ByteRange = ByteRange { lo: 0, hi: 255 };

/// Adds a move by every byte of a range, which puts out the one thing or nothing.
fn add(
    alloc: Global,
    table: &mut Table,
    from: u64,
    range: ByteRange,
    out: Option<Out>,
    to: u64,
) -> Result<(), NoMemory>
    requires from { from < table.old.states }
    requires to { to < table.old.states }
    ensures states { table.new.states ≡ table.old.states }
{
    let mut outs = Vec::new(alloc);
    if let Some(out) = out {
        outs.push(out)?;
    }
    table.add_move(TableMove {
        from,
        range,
        out: outs,
        to,
    })?;
    Ok(())
}

/// Lets a state be an end that puts out nothing.
fn stop(alloc: Global, table: &mut Table, state: u64) -> Result<(), NoMemory>
    requires { state < table.old.states }
    ensures { table.new.states ≡ table.old.states }
{
    table.add_end(TableEnd {
        state,
        out: Vec::new(alloc),
    })?;
    Ok(())
}

/// A table that relates a text to each of its contiguous parts: before it, in it, after it.
fn parts(alloc: Global) -> Result<Table, NoMemory> {
    let mut table = Table::new(alloc, 3, 0);
    add(alloc, &mut table, 0, ALL, None, 0)?;
    add(alloc, &mut table, 0, ALL, Some(Out::Same), 1)?;
    add(alloc, &mut table, 1, ALL, Some(Out::Same), 1)?;
    add(alloc, &mut table, 1, ALL, None, 2)?;
    add(alloc, &mut table, 2, ALL, None, 2)?;
    stop(alloc, &mut table, 0)?;
    stop(alloc, &mut table, 1)?;
    stop(alloc, &mut table, 2)?;
    Ok(table)
}

/// A table that takes capital letters to small ones, and puts `!` at the end.
fn lower(alloc: Global) -> Result<Table, NoMemory> {
    let mut table = Table::new(alloc, 1, 0);
    let capital = ByteRange { lo: b'A', hi: b'Z' };
    add(alloc, &mut table, 0, capital, Some(Out::Shift(32)), 0)?;
    let mut out = Vec::new(alloc);
    out.push(Out::Byte(b'!'))?;
    table.add_end(TableEnd { state: 0, out })?;
    Ok(table)
}

#[test]
fn a_text_and_its_parts(rt: HostRuntime) -> Result<(), Fail> {
    let table = parts(rt.alloc())?;
    let rows: [(&[u8], &[u8], bool); 7] = [
        (b"", b"", true),
        (b"abc", b"", true),
        (b"abc", b"bc", true),
        (b"abc", b"abc", true),
        (b"abc", b"ac", false),
        (b"abc", b"abcd", false),
        (b"", b"a", false),
    ];
    for (input, output, answer) in rows {
        assert_eq!(rt; applies(rt.alloc(), &table, input, output)?, answer);
    }
    Ok(())
}

#[test]
fn capitals_and_an_end(rt: HostRuntime) -> Result<(), Fail> {
    let table = lower(rt.alloc())?;
    let rows: [(&[u8], &[u8], bool); 5] = [
        (b"", b"!", true),
        (b"PHP", b"php!", true),
        (b"PHP", b"php", false),
        (b"PHP", b"PHP!", false),
        (b"php", b"php!", false),
    ];
    for (input, output, answer) in rows {
        assert_eq!(rt; applies(rt.alloc(), &table, input, output)?, answer);
    }
    Ok(())
}

#[test]
fn a_token_is_no_byte(rt: HostRuntime) -> Result<(), Fail> {
    let alloc = rt.alloc();
    let mut table = Table::new(alloc, 1, 0);
    add(
        alloc,
        &mut table,
        0,
        ALL,
        Some(Out::Token(PageToken::Text)),
        0,
    )?;
    stop(alloc, &mut table, 0)?;
    assert_eq!(rt; applies(alloc, &table, b"", b"")?, true);
    assert_eq!(rt; applies(alloc, &table, b"a", b"a")?, false);
    Ok(())
}

/// The moves that a machine has in its first state by a range.
fn first_moves<M: Machine>(
    alloc: Global,
    machine: &M,
    range: ByteRange,
) -> Result<usize, NoMemory> {
    let start = machine.start(alloc)?;
    let again = machine.copy(alloc, &start)?;
    let moves = machine.moves(alloc, &again, range)?;
    let _lasts = machine.last(alloc, &again)?;
    Ok(moves.len())
}

#[test]
fn an_indexed_table_as_a_machine(rt: HostRuntime) -> Result<(), Fail> {
    let alloc = rt.alloc();
    let digits = ByteRange { lo: b'0', hi: b'9' };
    let lower = IndexedTable::new(alloc, lower(alloc)?)?;
    assert_eq!(rt; first_moves(alloc, &lower, ALL)?, 1);
    assert_eq!(rt; first_moves(alloc, &lower, digits)?, 0);
    let parts = IndexedTable::new(alloc, parts(alloc)?)?;
    assert_eq!(rt; first_moves(alloc, &parts, digits)?, 2);
    Ok(())
}
