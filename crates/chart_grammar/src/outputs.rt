//! The productions of what is put out.

ghost use Rattle.std.specs.Prelude.{◌≡◌, ◌<◌, ◌≤◌, ◌+◌, ℕ, IfOk, OnOk, true, length};
ghost use Rattle.text_base.specs.ByteRange.{InRange};
ghost use Rattle.chart_grammar.specs.Lifts.{HasFronts, FrontLift};
ghost use Rattle.chart_grammar.specs.Written.{WritesBehind, WritesOne, WritesAll};
ghost use Rattle.chart_grammar.specs.Writing.{ReadMade, ReadHas, EndMade, EndHas, HasPart, HasByte, WritesSome, AddsFront, GivesOne};
ghost use Rattle.chart_grammar.specs.Saying.{IsFiled};
ghost use Rattle.chart_grammar.specs.Paid.{ReadingPays, ReadingsPay, EndPays, EndsPay};

use crate::fronts::Front;
use crate::lifts::{Last, nonterminal_of, right_of_front};
use crate::saying::{Outputs, say, say_wide};
use crate::symbols::{are_fixed, symbols_of};
use cfg_grammar::{Production, Symbol};
use grammar_chart::{Passage, Reading};
use indexmap::IndexSet;
use std::alloc::Global;
use text_base::{ByteRange, NoMemory, Nt};

/// Writes the production of what is put out by a part of a reading, whose bytes all give one text;
/// false where the letters depend on one another.
fn write_part(
    alloc: Global,
    passages: &IndexSet<Passage>,
    base: u64,
    outputs: &mut Outputs,
    reading: &Reading,
    part: ByteRange,
) -> Result<bool, NoMemory>
    requires base { base ≤ 9223372036854775808 }
    requires low { reading.now.range.lo ≤ part.lo }
    requires high { part.hi ≤ reading.now.range.hi }
    requires one { GivesOne part reading.now.out.items }
    requires filed { IsFiled outputs.old }
    ensures some { OnOk result
        (WritesSome passages.now.keys base reading.now outputs.old.fronts.keys
        outputs.new.fronts.keys outputs.old.out.items outputs.new.out.items) }
    ensures has { IfOk result
        (λ done. done ≡ true
        → HasPart passages.now.keys base reading.now outputs.new.fronts.keys part
        outputs.new.out.items) }
    ensures single { part.lo ≡ part.hi → IfOk result (λ done. done ≡ true) }
    ensures filed { OnOk result (IsFiled outputs.new) }
    ensures pays { OnOk result
        (ReadingPays passages.now.keys base reading.now outputs.old outputs.new) }
{
    let Some(symbols) = symbols_of(alloc, part, reading.out.as_slice())? else {
        return Ok(false);
    };
    let passage = Passage {
        symbol: Symbol::Range(reading.asked),
        from: reading.from,
        to: reading.to,
    };
    let Some(left) = nonterminal_of(passages, passage) else {
        return Ok(true);
    };
    say(base, outputs, left.0, 0, symbols.as_slice())?;
    Ok(true)
}

/// Writes the production of what is put out by the whole range of a reading; false where the
/// letters depend on one another, or another range of the passage with this least byte stays whole.
fn write_wide(
    alloc: Global,
    passages: &IndexSet<Passage>,
    base: u64,
    outputs: &mut Outputs,
    reading: &Reading,
) -> Result<bool, NoMemory>
    requires base { base ≤ 9223372036854775808 }
    requires some { 0 < length reading.now.out.items }
    requires filed { IsFiled outputs.old }
    ensures some { OnOk result
        (WritesSome passages.now.keys base reading.now outputs.old.fronts.keys
        outputs.new.fronts.keys outputs.old.out.items outputs.new.out.items) }
    ensures has { IfOk result
        (λ done. done ≡ true
        → HasPart passages.now.keys base reading.now outputs.new.fronts.keys reading.now.range
        outputs.new.out.items) }
    ensures filed { OnOk result (IsFiled outputs.new) }
    ensures pays { OnOk result
        (ReadingPays passages.now.keys base reading.now outputs.old outputs.new) }
{
    let Some(symbols) = symbols_of(alloc, reading.range, reading.out.as_slice())? else {
        return Ok(false);
    };
    let passage = Passage {
        symbol: Symbol::Range(reading.asked),
        from: reading.from,
        to: reading.to,
    };
    let Some(left) = nonterminal_of(passages, passage) else {
        return Ok(true);
    };
    if say_wide(base, outputs, left.0, reading.range.lo, symbols.as_slice())? {
        return Ok(true);
    }
    Ok(false)
}

/// Writes the production of what is put out by the whole range of a reading, if it can be.
fn write_whole_range(
    alloc: Global,
    passages: &IndexSet<Passage>,
    base: u64,
    outputs: &mut Outputs,
    reading: &Reading,
) -> Result<bool, NoMemory>
    requires base { base ≤ 9223372036854775808 }
    requires filed { IsFiled outputs.old }
    ensures some { OnOk result
        (WritesSome passages.now.keys base reading.now outputs.old.fronts.keys
        outputs.new.fronts.keys outputs.old.out.items outputs.new.out.items) }
    ensures has { IfOk result
        (λ done. done ≡ true
        → HasPart passages.now.keys base reading.now outputs.new.fronts.keys reading.now.range
        outputs.new.out.items) }
    ensures filed { OnOk result (IsFiled outputs.new) }
    ensures pays { OnOk result
        (ReadingPays passages.now.keys base reading.now outputs.old outputs.new) }
{
    if reading.range.lo == reading.range.hi {
        return write_part(alloc, passages, base, outputs, reading, reading.range);
    }
    if are_fixed(reading.out.as_slice()) {
        return write_part(alloc, passages, base, outputs, reading, reading.range);
    }
    write_wide(alloc, passages, base, outputs, reading)
}

/// Writes the production of what is put out by one byte, if it is one of the reading.
fn write_byte(
    alloc: Global,
    passages: &IndexSet<Passage>,
    base: u64,
    outputs: &mut Outputs,
    reading: &Reading,
    byte: u8,
) -> Result<(), NoMemory>
    requires base { base ≤ 9223372036854775808 }
    requires filed { IsFiled outputs.old }
    ensures some { OnOk result
        (WritesSome passages.now.keys base reading.now outputs.old.fronts.keys
        outputs.new.fronts.keys outputs.old.out.items outputs.new.out.items) }
    ensures has { OnOk result
        (InRange reading.now.range byte
        → HasByte passages.now.keys base reading.now outputs.new.fronts.keys byte
        outputs.new.out.items) }
    ensures filed { OnOk result (IsFiled outputs.new) }
    ensures pays { OnOk result
        (ReadingPays passages.now.keys base reading.now outputs.old outputs.new) }
{
    if byte < reading.range.lo {
        return Ok(());
    }
    if reading.range.hi < byte {
        return Ok(());
    }
    let part = ByteRange { lo: byte, hi: byte };
    let _ = write_part(alloc, passages, base, outputs, reading, part)?;
    Ok(())
}

/// Writes the productions of what is put out by each byte of a reading.
fn write_bytes(
    alloc: Global,
    passages: &IndexSet<Passage>,
    base: u64,
    outputs: &mut Outputs,
    reading: &Reading,
) -> Result<(), NoMemory>
    requires base { base ≤ 9223372036854775808 }
    requires filed { IsFiled outputs.old }
    ensures some { OnOk result
        (WritesSome passages.now.keys base reading.now outputs.old.fronts.keys
        outputs.new.fronts.keys outputs.old.out.items outputs.new.out.items) }
    ensures has { OnOk result ((byte : ℕ) → byte < 256 → InRange reading.now.range byte
        → HasByte passages.now.keys base reading.now outputs.new.fronts.keys byte
        outputs.new.out.items) }
    ensures filed { OnOk result (IsFiled outputs.new) }
    ensures pays { OnOk result
        (ReadingPays passages.now.keys base reading.now outputs.old outputs.new) }
{
    for number in 0..256usize {
        write_byte(alloc, passages, base, outputs, reading, number as u8)?;
    }
    Ok(())
}

/// Writes the productions of what is put out by a reading: one for the whole range, or one for each
/// of its bytes where the letters depend on one another or another range begins there.
fn write_reading(
    alloc: Global,
    passages: &IndexSet<Passage>,
    base: u64,
    outputs: &mut Outputs,
    reading: &Reading,
) -> Result<(), NoMemory>
    requires base { base ≤ 9223372036854775808 }
    requires filed { IsFiled outputs.old }
    ensures writes { OnOk result
        (WritesOne (ReadMade passages.now.keys base) (ReadHas passages.now.keys base) reading.now
        outputs.old.fronts.keys outputs.new.fronts.keys outputs.old.out.items
        outputs.new.out.items) }
    ensures filed { OnOk result (IsFiled outputs.new) }
    ensures pays { OnOk result
        (ReadingPays passages.now.keys base reading.now outputs.old outputs.new) }
{
    let _hi = reading.range.hi;
    if write_whole_range(alloc, passages, base, outputs, reading)? {
        return Ok(());
    }
    write_bytes(alloc, passages, base, outputs, reading)?;
    Ok(())
}

/// Writes the productions of what is put out by all readings.
pub fn write_readings(
    alloc: Global,
    passages: &IndexSet<Passage>,
    base: u64,
    outputs: &mut Outputs,
    readings: &[Reading],
) -> Result<(), NoMemory>
    requires base { base ≤ 9223372036854775808 }
    requires filed { IsFiled outputs.old }
    ensures writes { OnOk result
        (WritesAll (ReadMade passages.now.keys base) (ReadHas passages.now.keys base) readings.now
        outputs.old.fronts.keys outputs.new.fronts.keys outputs.old.out.items
        outputs.new.out.items) }
    ensures filed { OnOk result (IsFiled outputs.new) }
    ensures pay { OnOk result
        (ReadingsPay passages.now.keys base readings.now outputs.old outputs.new) }
{
    for reading in readings {
        write_reading(alloc, passages, base, outputs, reading)?;
    }
    Ok(())
}

/// Writes the production of what is put out at an end, if the start leads there.
fn write_end(
    alloc: Global,
    passages: &IndexSet<Passage>,
    base: u64,
    outputs: &mut Outputs,
    from: Nt,
    last: &Last,
) -> Result<(), NoMemory>
    requires base { base ≤ 9223372036854775808 }
    requires filed { IsFiled outputs.old }
    ensures writes { OnOk result
        (WritesOne (EndMade from passages.now.keys base) (EndHas from passages.now.keys base)
        last.now outputs.old.fronts.keys outputs.new.fronts.keys outputs.old.out.items
        outputs.new.out.items) }
    ensures filed { OnOk result (IsFiled outputs.new) }
    ensures pays { OnOk result (EndPays from passages.now.keys base last.now outputs.old outputs.new) }
{
    let none = ByteRange { lo: 0, hi: 0 };
    let Some(symbols) = symbols_of(alloc, none, last.out.as_slice())? else {
        return Ok(());
    };
    let whole = Passage {
        symbol: Symbol::Nt(from),
        from: 0,
        to: last.state,
    };
    let Some(passage) = nonterminal_of(passages, whole) else {
        return Ok(());
    };
    say(base, outputs, 0, passage.0, symbols.as_slice())?;
    Ok(())
}

/// Writes the productions of what is put out at the ends that the start leads to.
pub fn write_ends(
    alloc: Global,
    passages: &IndexSet<Passage>,
    base: u64,
    outputs: &mut Outputs,
    from: Nt,
    lasts: &[Last],
) -> Result<(), NoMemory>
    requires base { base ≤ 9223372036854775808 }
    requires filed { IsFiled outputs.old }
    ensures writes { OnOk result
        (WritesAll (EndMade from passages.now.keys base) (EndHas from passages.now.keys base)
        lasts.now outputs.old.fronts.keys outputs.new.fronts.keys outputs.old.out.items
        outputs.new.out.items) }
    ensures filed { OnOk result (IsFiled outputs.new) }
    ensures pay { OnOk result (EndsPay from passages.now.keys base lasts.now outputs.old outputs.new) }
{
    for last in lasts {
        write_end(alloc, passages, base, outputs, from, last)?;
    }
    Ok(())
}

/// Writes the production of a front, if its nonterminals are below the count.
fn write_front(
    base: u64,
    count: u64,
    number: usize,
    front: Front,
    out: &mut Vec<Production>,
) -> Result<(), NoMemory>
    requires base { base ≤ 9223372036854775808 }
    requires short { number < 9223372036854775808 }
    ensures adds { OnOk result (AddsFront base count number front out.old.items out.new.items) }
    ensures few { OnOk result (length out.new.items ≤ length out.old.items + 1) }
{
    let production = Production {
        left: Nt(base + number as u64),
        right: right_of_front(front),
    };
    if !production.is_below(count) {
        return Ok(());
    }
    out.push(production)?;
    Ok(())
}

/// Writes the productions of the fronts. Those that no output has would have other nonterminals;
/// they are left out.
pub fn write_fronts(
    fronts: &[Front],
    base: u64,
    count: u64,
    out: &mut Vec<Production>,
) -> Result<(), NoMemory>
    requires base { base ≤ 9223372036854775808 }
    requires short { length fronts.now < 9223372036854775808 }
    requires count { count ≡ base + length fronts.now }
    ensures puts { OnOk result
        (WritesBehind (λ p. FrontLift fronts.now base p) out.old.items out.new.items) }
    ensures has { OnOk result (HasFronts fronts.now base out.new.items) }
    ensures few { OnOk result
        (length out.new.items ≤ length out.old.items + length fronts.now) }
{
    for (number, front) in fronts.iter().enumerate() {
        write_front(base, count, number, *front, out)?;
    }
    Ok(())
}
