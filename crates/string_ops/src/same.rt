//! The machine that relates each text to itself.

ghost use Rattle.std.specs.Prelude.{◌≡◌, IfOk};
ghost use Rattle.string_ops.specs.Listed.{IsListed, IsMachine};
ghost use Rattle.string_ops.specs.Same.{same_rows, same_lasts};

use fst_core::{Out, Table, TableEnd, TableMove};
use std::alloc::Global;
use text_base::{ByteRange, NoMemory};

/// The machine of `Op::Same`.
pub(crate) fn same_machine(alloc: Global) -> Result<Table, NoMemory>
    ensures { IfOk result (λ table. IsMachine table 0 (λ input output. output ≡ input)) }
{
    let table = same_table(alloc)?;
    Ok(table)
}

/// One state, which puts out each byte as it is read.
fn same_table(alloc: Global) -> Result<Table, NoMemory>
    ensures { IfOk result (λ table. IsListed table 1 same_rows same_lasts) }
{
    let mut table = Table::new(alloc, 1, 0);
    let mut out = Vec::new(alloc);
    out.push(Out::Same)?;
    table.add_move(TableMove {
        from: 0,
        range: ByteRange { lo: 0, hi: 255 },
        out,
        to: 0,
    })?;
    table.add_end(TableEnd {
        state: 0,
        out: Vec::new(alloc),
    })?;
    Ok(table)
}
