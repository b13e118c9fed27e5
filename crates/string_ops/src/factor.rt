//! The machine of the parts of a text.

ghost use Rattle.std.specs.Prelude.{◌≡◌, ◌<◌, [], ◌∷◌, IfOk, OnOk, if◌then◌else◌};
ghost use Rattle.fst_core.specs.declared.out.Out.TheVariants.{Same};
ghost use Rattle.string_functions.specs.Cut.{IsFactor};
ghost use Rattle.string_ops.specs.Listed.{IsListed, IsMachine};
ghost use Rattle.string_ops.specs.Search.{AddsTurns};
ghost use Rattle.string_ops.specs.Factor.{factor_rows, factor_lasts};

use crate::piece::stop_silently;
use fst_core::{Out, Table, TableMove};
use std::alloc::Global;
use text_base::{ByteRange, NoMemory};

/// The machine of `Op::Factor`.
pub(crate) fn factor_machine(alloc: Global) -> Result<Table, NoMemory>
    ensures { IfOk result (λ table. IsMachine table 0 (λ input output. IsFactor input output)) }
{
    let table = factor_table(alloc)?;
    Ok(table)
}

/// A state before the part, one in it and one behind it.
fn factor_table(alloc: Global) -> Result<Table, NoMemory>
    ensures { IfOk result (λ table. IsListed table 3 factor_rows factor_lasts) }
{
    let mut table = Table::new(alloc, 3, 0);
    add_step(alloc, &mut table, 0, 0, false)?;
    add_step(alloc, &mut table, 0, 1, true)?;
    add_step(alloc, &mut table, 1, 1, true)?;
    add_step(alloc, &mut table, 1, 2, false)?;
    add_step(alloc, &mut table, 2, 2, false)?;
    stop_silently(alloc, &mut table, 0)?;
    stop_silently(alloc, &mut table, 1)?;
    stop_silently(alloc, &mut table, 2)?;
    Ok(table)
}

/// Adds a move by every byte, which puts out the byte or nothing.
pub(crate) fn add_step(
    alloc: Global,
    table: &mut Table,
    from: u64,
    to: u64,
    copied: bool,
) -> Result<(), NoMemory>
    requires from { from < table.old.states }
    requires to { to < table.old.states }
    ensures moves { OnOk result (AddsTurns table.old.moves.items table.new.moves.items from
        (λ byte. (to, if copied then Same ∷ [] else []))) }
    ensures states { table.new.states ≡ table.old.states }
    ensures start { table.new.start ≡ table.old.start }
    ensures ends { table.new.ends.items ≡ table.old.ends.items }
{
    let out = copy_out(alloc, copied)?;
    table.add_move(TableMove {
        from,
        range: ByteRange { lo: 0, hi: 255 },
        out,
        to,
    })?;
    Ok(())
}

/// The byte that is read, or nothing.
fn copy_out(alloc: Global, copied: bool) -> Result<Vec<Out>, NoMemory>
    ensures { IfOk result (λ out. out.items ≡ (if copied then Same ∷ [] else [])) }
{
    let mut out = Vec::new(alloc);
    if copied {
        out.push(Out::Same)?;
        return Ok(out);
    }
    Ok(out)
}
