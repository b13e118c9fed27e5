//! The machine of an operation.

ghost use Rattle.std.specs.Prelude.{◌≡◌, ◌≢◌, ◌+◌, length, IfOk};
ghost use Rattle.string_functions.specs.Pieces.{replaced_text};
ghost use Rattle.op_system.specs.Rel.{Rel};
ghost use Rattle.op_system.specs.Size.{size_of};
ghost use Rattle.op_system.specs.declared.op.Op.TheVariants.{Any};
ghost use Rattle.string_ops.specs.Listed.{IsMachine};

use crate::breaks::breaks_machine;
use crate::bytewise::{Bytewise, bytewise_machine};
use crate::cut::cut_machine;
use crate::factor::factor_machine;
use crate::first::first_machine;
use crate::html::html_machine;
use crate::piece::piece_machine;
use crate::replace::replace_machine;
use crate::same::same_machine;
use crate::trim::trim_machine;
use fst_core::Table;
use op_system::Op;
use std::alloc::Global;
use text_base::NoMemory;

/// The machine of an operation: over bytes it relates exactly the pairs that the operation does.
/// No page token stands in it. For an operation of size z (its literal bytes and the absolute
/// values of its numbers) it has at most `8 * (z + 8)` states, at most four moves from one state
/// to another by each byte, and no output longer than `z + 8`. `Op::Any` has no machine.
pub fn machine_of(alloc: Global, op: &Op) -> Result<Table, NoMemory>
    requires { op.now ≢ Any }
    ensures { IfOk result (λ table. IsMachine table (size_of op.now) (Rel op.now)) }
{
    match op {
        Op::Same => same_machine(alloc),
        Op::Any => unreachable!(),
        Op::Html => html_machine(alloc),
        Op::Replace { search, with } => {
            replace_or_same(alloc, search.as_slice(), with.as_slice())
        },
        Op::Cut { start, len } => cut_machine(alloc, start, *len),
        Op::Factor => factor_machine(alloc),
        Op::Lower => bytewise_machine(alloc, Bytewise::Lower),
        Op::Upper => bytewise_machine(alloc, Bytewise::Upper),
        Op::First => first_machine(alloc),
        Op::Trim { left, right } => trim_machine(alloc, *left, *right),
        Op::Breaks => breaks_machine(alloc),
        Op::Url => bytewise_machine(alloc, Bytewise::Url),
        Op::RawUrl => bytewise_machine(alloc, Bytewise::RawUrl),
        Op::Slashes => bytewise_machine(alloc, Bytewise::Slashes),
        Op::Piece { sep } => piece_machine(alloc, sep.as_slice()),
    }
}

/// The machine of `Op::Replace`; where the search is empty it changes nothing.
fn replace_or_same(alloc: Global, search: &[u8], with: &[u8]) -> Result<Table, NoMemory>
    ensures { IfOk result (λ table. IsMachine table (length search.now + length with.now)
        (λ input output. output ≡ replaced_text search.now with.now input)) }
{
    if search.is_empty() {
        let size = with.len();
        return same_of_size(alloc, size);
    }
    let table = replace_machine(alloc, search, with)?;
    Ok(table)
}

/// The machine that changes nothing, for an operation of any size.
fn same_of_size(alloc: Global, size: usize) -> Result<Table, NoMemory>
    ensures { IfOk result (λ table. IsMachine table size (λ input output. output ≡ input)) }
{
    let table = same_machine(alloc)?;
    let _ = size;
    Ok(table)
}
