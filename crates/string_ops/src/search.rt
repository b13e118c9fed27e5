//! The states of a search for a pattern, by its failure function.

ghost use Rattle.std.specs.Prelude.{◌≡◌, ◌+◌, ◌<◌, ◌≤◌, ◌^◌, ◌++◌, [], ◌∷◌, length, map, IfOk, OnOk, if◌then◌else◌};
ghost use Rattle.fst_core.specs.declared.out.Out.TheVariants.{Byte};
ghost use Rattle.string_functions.specs.Failure.{AreFailures};
ghost use Rattle.string_ops.specs.Search.{turn, turn_by, AddsTurn, AddsFirst, AddsTurns, AddsSearch, AddsEnds};

use fst_core::{Action, Out, Table, TableEnd, TableMove};
use std::alloc::Global;
use string_functions::next_row;
use text_base::{ByteRange, NoMemory};

/// A search for a pattern.
#[derive(Clone, Copy)]
pub(crate) struct Search<'a> {
    /// What is searched; at least one byte.
    pub pattern: &'a [u8],
    /// The failure function of the pattern.
    pub failures: &'a [usize],
    /// The state in which no byte of the pattern is read; each byte more is one state more.
    pub base: u64,
    /// The state behind an occurrence.
    pub full_to: u64,
    /// What is put out for an occurrence.
    pub full_out: &'a [Out],
    /// Whether what is part of no occurrence is put out.
    pub shown: bool,
}

/// The bytes as what a move puts out.
pub(crate) fn bytes_out(alloc: Global, bytes: &[u8]) -> Result<Vec<Out>, NoMemory>
    ensures { IfOk result (λ out. out.items ≡ map Byte bytes.now) }
{
    let mut out = Vec::new(alloc);
    for byte in bytes {
        out.push(Out::Byte(*byte))?;
    }
    Ok(out)
}

/// What is read and is part of no occurrence any more, where `at` bytes of the pattern were read
/// before a byte and `part` after it.
fn let_go(alloc: Global, pattern: &[u8], at: usize, part: usize) -> Result<Vec<Out>, NoMemory>
    requires at { at < length pattern.now }
    requires part { part ≤ at + 1 }
    ensures { IfOk result
        (λ out. out.items ≡ Rattle.string_ops.specs.Search.let_go pattern.now at part) }
{
    if part == 0 {
        let mut out = bytes_out(alloc, &pattern[..at])?;
        out.push(Out::Same)?;
        return Ok(out);
    }
    bytes_out(alloc, &pattern[..at + 1 - part])
}

/// What is put out after a byte that does not make the pattern whole.
fn shown_out(alloc: Global, search: &Search, at: usize, part: usize) -> Result<Vec<Out>, NoMemory>
    requires at { at < length search.now.pattern.now }
    requires part { part ≤ at + 1 }
    ensures { IfOk result (λ out. out.items ≡
        (if search.now.shown then Rattle.string_ops.specs.Search.let_go search.now.pattern.now at
        part else [])) }
{
    if search.shown {
        let out = let_go(alloc, search.pattern, at, part)?;
        return Ok(out);
    }
    Ok(Vec::new(alloc))
}

/// Where a search goes after a byte, and what it puts out.
fn action_of(alloc: Global, search: &Search, at: usize, part: usize) -> Result<Action, NoMemory>
    requires at { at < length search.now.pattern.now }
    requires part { part ≤ at + 1 }
    requires room { search.now.base + length search.now.pattern.now < 2 ^ 64 }
    ensures { IfOk result (λ action. (action.to, action.out.items)
        ≡ turn search.now.pattern.now search.now.base
        (search.now.full_to, search.now.full_out.now) search.now.shown at part) }
{
    if part == search.pattern.len() {
        let out = Vec::from_slice(alloc, search.full_out)?;
        return Ok(Action {
            to: search.full_to,
            out,
        });
    }
    let out = shown_out(alloc, search, at, part)?;
    Ok(Action {
        to: search.base + part as u64,
        out,
    })
}

/// Adds the move of a state by one byte after which `part` bytes of the pattern are read, if that
/// is any.
fn add_turn(
    alloc: Global,
    table: &mut Table,
    from: u64,
    search: &Search,
    at: usize,
    byte: u8,
    part: usize,
) -> Result<(), NoMemory>
    requires from { from < table.old.states }
    requires full { search.now.full_to < table.old.states }
    requires room { search.now.base + length search.now.pattern.now ≤ table.old.states }
    requires fits { search.now.base + length search.now.pattern.now < 2 ^ 64 }
    requires at { at < length search.now.pattern.now }
    requires part { part ≤ at + 1 }
    ensures moves { OnOk result (AddsTurn table.old.moves.items table.new.moves.items from byte part
        (turn search.now.pattern.now search.now.base
        (search.now.full_to, search.now.full_out.now) search.now.shown at part)) }
    ensures states { table.new.states ≡ table.old.states }
    ensures start { table.new.start ≡ table.old.start }
    ensures ends { table.new.ends.items ≡ table.old.ends.items }
{
    if part == 0 {
        return Ok(());
    }
    let action = action_of(alloc, search, at, part)?;
    let Action { to, out } = action;
    table.add_move(TableMove {
        from,
        range: ByteRange { lo: byte, hi: byte },
        out,
        to,
    })?;
    Ok(())
}

/// Adds the moves of a state in which `at` bytes of the pattern are read.
pub(crate) fn add_state(
    alloc: Global,
    table: &mut Table,
    from: u64,
    search: &Search,
    at: usize,
) -> Result<(), NoMemory>
    requires from { from < table.old.states }
    requires full { search.now.full_to < table.old.states }
    requires room { search.now.base + length search.now.pattern.now ≤ table.old.states }
    requires fits { search.now.base + length search.now.pattern.now < 2 ^ 64 }
    requires at { at < length search.now.pattern.now }
    requires failures { AreFailures search.now.pattern.now search.now.failures.now
        (length search.now.pattern.now) }
    ensures moves { OnOk result (AddsTurns table.old.moves.items table.new.moves.items from
        (turn_by search.now.pattern.now search.now.base
        (search.now.full_to, search.now.full_out.now) search.now.shown at)) }
    ensures states { table.new.states ≡ table.old.states }
    ensures start { table.new.start ≡ table.old.start }
    ensures ends { table.new.ends.items ≡ table.old.ends.items }
{
    let row = next_row(alloc, search.pattern, search.failures, at)?;
    let nothing = action_of(alloc, search, at, 0)?;
    add_first(alloc, table, from, row.as_slice(), nothing)?;
    for byte in 0..256usize {
        add_turn(alloc, table, from, search, at, byte as u8, row[byte])?;
    }
    Ok(())
}

/// Adds the moves of a state by the bytes after which nothing of the pattern is read.
fn add_first(
    alloc: Global,
    table: &mut Table,
    from: u64,
    row: &[usize],
    nothing: Action,
) -> Result<(), NoMemory>
    requires from { from < table.old.states }
    requires row { length row.now ≡ 256 }
    requires to { nothing.to < table.old.states }
    ensures moves { OnOk result
        (AddsFirst table.old.moves.items table.new.moves.items from row.now
        (nothing.to, nothing.out.items)) }
    ensures states { table.new.states ≡ table.old.states }
    ensures start { table.new.start ≡ table.old.start }
    ensures ends { table.new.ends.items ≡ table.old.ends.items }
{
    let mut actions = Vec::new(alloc);
    actions.push(nothing)?;
    table.add_row(alloc, from, row, actions.as_slice())?;
    Ok(())
}

/// Adds the states of a search.
pub(crate) fn add_states(alloc: Global, table: &mut Table, search: &Search) -> Result<(), NoMemory>
    requires full { search.now.full_to < table.old.states }
    requires room { search.now.base + length search.now.pattern.now ≤ table.old.states }
    requires fits { search.now.base + length search.now.pattern.now < 2 ^ 64 }
    requires failures { AreFailures search.now.pattern.now search.now.failures.now
        (length search.now.pattern.now) }
    ensures moves { OnOk result
        (AddsSearch table.old.moves.items table.new.moves.items search.now.base
        (length search.now.pattern.now) (turn_by search.now.pattern.now search.now.base
        (search.now.full_to, search.now.full_out.now) search.now.shown)) }
    ensures states { table.new.states ≡ table.old.states }
    ensures start { table.new.start ≡ table.old.start }
    ensures ends { table.new.ends.items ≡ table.old.ends.items }
{
    for at in 0..search.pattern.len() {
        add_state(alloc, table, search.base + at as u64, search, at)?;
    }
    Ok(())
}

/// Lets the text end in the states of a search, with the bytes of the pattern put out that are
/// read there.
pub(crate) fn add_ends(
    alloc: Global,
    table: &mut Table,
    base: u64,
    pattern: &[u8],
) -> Result<(), NoMemory>
    requires room { base + length pattern.now ≤ table.old.states }
    requires fits { base + length pattern.now < 2 ^ 64 }
    ensures ends { OnOk result
        (AddsEnds table.old.ends.items table.new.ends.items base (length pattern.now) pattern.now) }
    ensures states { table.new.states ≡ table.old.states }
    ensures start { table.new.start ≡ table.old.start }
    ensures moves { table.new.moves.items ≡ table.old.moves.items }
{
    for at in 0..pattern.len() {
        let out = bytes_out(alloc, &pattern[..at])?;
        table.add_end(TableEnd {
            state: base + at as u64,
            out,
        })?;
    }
    Ok(())
}
