//! The machine of `substr` with a start and a length that are known, where the start is not
//! negative.

ghost use Rattle.std.specs.Prelude.{◌≡◌, ◌+◌, ◌<◌, ◌≤◌, ◌^◌, pos, negsuc, Some, None, nat_abs, IfOk, OnOk};
ghost use Rattle.string_functions.specs.Cut.{part_of};
ghost use Rattle.op_system.specs.Size.{size_of_length};
ghost use Rattle.string_ops.specs.Listed.{IsListed, IsMachine};
ghost use Rattle.string_ops.specs.Search.{AddsSearch, AddsStops};
ghost use Rattle.string_ops.specs.Cut.{is_negative, is_all, is_early, count_turn, down_turn, front_rows, front_lasts, inner_rows, inner_lasts};

use crate::cut_back::back_machine;
use crate::factor::add_step;
use crate::piece::stop_silently;
use fst_core::Table;
use std::alloc::Global;
use text_base::NoMemory;

/// A cut by more bytes than these finds no memory for its table.
const MOST: u64 = 1 << 60;

/// The machine of `Op::Cut`.
pub(crate) fn cut_machine(alloc: Global, start: &i64, len: Option<i64>) -> Result<Table, NoMemory>
    ensures { IfOk result (λ table. IsMachine table (nat_abs start.now + size_of_length len)
        (λ input output. output ≡ part_of input start.now len)) }
{
    let number = magnitude(start);
    if number > MOST {
        return Err(NoMemory);
    }
    if size(len) > MOST {
        return Err(NoMemory);
    }
    if is_below_zero(start) {
        return back_machine(alloc, number - 1, len);
    }
    front_machine(alloc, number, len)
}

/// The absolute value.
fn magnitude(number: &i64) -> u64
    ensures value { result ≡ nat_abs number.now }
    ensures within { result ≤ 2 ^ 63 }
{
    number.unsigned_abs()
}

/// Whether the number is negative.
fn is_below_zero(number: &i64) -> bool
    ensures { result ≡ is_negative number.now }
{
    *number < 0
}

/// Whether there is no length.
fn is_rest(len: Option<i64>) -> bool
    ensures { result ≡ is_all len }
{
    match len {
        None => true,
        Some(_) => false,
    }
}

/// Whether the length is negative.
fn ends_before(len: Option<i64>) -> bool
    ensures { result ≡ is_early len }
{
    match len {
        None => false,
        Some(len) => len < 0,
    }
}

/// The absolute value of the length.
fn size(len: Option<i64>) -> u64
    ensures { result ≡ size_of_length len }
{
    match len {
        None => 0,
        Some(len) => len.unsigned_abs(),
    }
}

/// The machine of a cut with a start that is not negative.
fn front_machine(alloc: Global, start: u64, len: Option<i64>) -> Result<Table, NoMemory>
    requires start { start ≤ 2 ^ 60 }
    requires len { size_of_length len ≤ 2 ^ 60 }
    ensures { IfOk result
        (λ table. IsMachine table (start + size_of_length len)
        (λ input output. output ≡ part_of input (pos start) len)) }
{
    if is_rest(len) {
        return rest_machine(alloc, start);
    }
    let number = size(len);
    if ends_before(len) {
        return inner_machine(alloc, start, number - 1);
    }
    next_machine(alloc, start, number)
}

/// The rest of the text from a start on.
pub(crate) fn rest_machine(alloc: Global, start: u64) -> Result<Table, NoMemory>
    requires { start ≤ 2 ^ 60 }
    ensures { IfOk result
        (λ table. IsMachine table start (λ input output. output ≡ part_of input (pos start) None)) }
{
    let table = front_table(alloc, start, start, true)?;
    Ok(table)
}

/// So many bytes from a start on.
pub(crate) fn next_machine(alloc: Global, start: u64, len: u64) -> Result<Table, NoMemory>
    requires start { start ≤ 2 ^ 60 }
    requires len { len ≤ 2 ^ 60 }
    ensures { IfOk result
        (λ table. IsMachine table (start + len)
        (λ input output. output ≡ part_of input (pos start) (Some (pos len)))) }
{
    let table = front_table(alloc, start + len, start, false)?;
    Ok(table)
}

/// The text from a start on, without its last bytes.
pub(crate) fn inner_machine(alloc: Global, start: u64, below: u64) -> Result<Table, NoMemory>
    requires start { start ≤ 2 ^ 60 }
    requires below { below < 2 ^ 60 }
    ensures { IfOk result (λ table. IsMachine table (start + (below + 1))
        (λ input output. output ≡ part_of input (pos start) (Some (negsuc below)))) }
{
    let table = inner_table(alloc, start, below + 1)?;
    Ok(table)
}

/// A state for each count of bytes.
fn front_table(alloc: Global, count: u64, from: u64, rest: bool) -> Result<Table, NoMemory>
    requires { count + 1 < 2 ^ 64 }
    ensures { IfOk result
        (λ table. IsListed table (count + 1) (front_rows count from rest) (front_lasts count)) }
{
    let mut table = Table::new(alloc, count + 1, 0);
    add_counts(alloc, &mut table, count, from)?;
    add_step(alloc, &mut table, count, count, rest)?;
    add_stops(alloc, &mut table, count + 1)?;
    Ok(table)
}

/// A state for each count of bytes up to those of a short text, one for the middle of a longer
/// one, and one for each count of bytes that are left of it.
fn inner_table(alloc: Global, start: u64, last: u64) -> Result<Table, NoMemory>
    requires { start + last + last + 3 < 2 ^ 64 }
    ensures { IfOk result
        (λ table. IsListed table (start + last + last + 3) (inner_rows start last)
        (inner_lasts start last)) }
{
    let count = start + last;
    let middle = count + 1;
    let left = count + 2;
    let mut table = Table::new(alloc, left + last + 1, 0);
    add_counts(alloc, &mut table, count, count)?;
    add_step(alloc, &mut table, start, middle, true)?;
    add_step(alloc, &mut table, start, left + last, true)?;
    add_step(alloc, &mut table, middle, middle, true)?;
    add_step(alloc, &mut table, middle, left + last, true)?;
    add_downs(alloc, &mut table, left, last)?;
    add_stops(alloc, &mut table, count + 1)?;
    stop_silently(alloc, &mut table, left)?;
    Ok(table)
}

/// Adds moves by which each of the first states goes to the next, and copies the byte from a
/// state on.
fn add_counts(alloc: Global, table: &mut Table, count: u64, from: u64) -> Result<(), NoMemory>
    requires { count < table.old.states }
    ensures moves { OnOk result
        (AddsSearch table.old.moves.items table.new.moves.items 0 count (count_turn from)) }
    ensures states { table.new.states ≡ table.old.states }
    ensures start { table.new.start ≡ table.old.start }
    ensures ends { table.new.ends.items ≡ table.old.ends.items }
{
    for at in 0..count {
        add_step(alloc, table, at, at + 1, from <= at)?;
    }
    Ok(())
}

/// Adds moves by which each of some states goes to the one before it, and puts out nothing.
fn add_downs(alloc: Global, table: &mut Table, base: u64, count: u64) -> Result<(), NoMemory>
    requires room { base + count < table.old.states }
    requires fits { base + count + 1 < 2 ^ 64 }
    ensures moves { OnOk result
        (AddsSearch table.old.moves.items table.new.moves.items (base + 1) count (down_turn base)) }
    ensures states { table.new.states ≡ table.old.states }
    ensures start { table.new.start ≡ table.old.start }
    ensures ends { table.new.ends.items ≡ table.old.ends.items }
{
    for at in 0..count {
        add_step(alloc, table, base + 1 + at, base + at, false)?;
    }
    Ok(())
}

/// Lets the text end in the first states, and puts out nothing there.
fn add_stops(alloc: Global, table: &mut Table, count: u64) -> Result<(), NoMemory>
    requires { count ≤ table.old.states }
    ensures ends { OnOk result (AddsStops table.old.ends.items table.new.ends.items count) }
    ensures states { table.new.states ≡ table.old.states }
    ensures start { table.new.start ≡ table.old.start }
    ensures moves { table.new.moves.items ≡ table.old.moves.items }
{
    for at in 0..count {
        stop_silently(alloc, table, at)?;
    }
    Ok(())
}
