//! The machine of `str_replace`.

ghost use Rattle.std.specs.Prelude.{◌≡◌, ◌+◌, ◌<◌, List, ℕ, length, IfOk};
ghost use Rattle.string_functions.specs.Pieces.{replaced_text};
ghost use Rattle.string_ops.specs.Listed.{IsListed, IsMachine};
ghost use Rattle.string_ops.specs.Replace.{replace_rows, replace_lasts};

use crate::search::{Search, add_ends, add_states, bytes_out};
use fst_core::Table;
use std::alloc::Global;
use string_functions::failures;
use text_base::NoMemory;

/// The machine of `Op::Replace` with a search that is not empty.
pub(crate) fn replace_machine(alloc: Global, pattern: &[u8], with: &[u8]) -> Result<Table, NoMemory>
    requires { 0 < length pattern.now }
    ensures { IfOk result (λ table. IsMachine table (length pattern.now + length with.now)
        (λ input output. output ≡ replaced_text pattern.now with.now input)) }
{
    let table = replace_table(alloc, pattern, with)?;
    Ok(table)
}

/// A state for each front of the pattern but the whole.
fn replace_table(alloc: Global, pattern: &[u8], with: &[u8]) -> Result<Table, NoMemory>
    requires { 0 < length pattern.now }
    ensures { IfOk result
        (λ table. IsListed table (length pattern.now) (replace_rows pattern.now with.now)
        (replace_lasts pattern.now)) }
{
    let failures = failures(alloc, pattern)?;
    let full_out = bytes_out(alloc, with)?;
    let search = Search {
        pattern,
        failures: failures.as_slice(),
        base: 0,
        full_to: 0,
        full_out: full_out.as_slice(),
        shown: true,
    };
    let mut table = Table::new(alloc, pattern.len() as u64, 0);
    add_states(alloc, &mut table, &search)?;
    add_ends(alloc, &mut table, 0, pattern)?;
    Ok(table)
}
