//! The machine of `ucfirst`.

ghost use Rattle.std.specs.Prelude.{◌≡◌, IfOk};
ghost use Rattle.string_functions.specs.Case.{first_upper_of};
ghost use Rattle.string_ops.specs.Listed.{IsMachine};
ghost use Rattle.string_ops.specs.First.{first_rows, first_lasts};
ghost use Rattle.string_ops.specs.MachineLaws as laws;
ghost use Rattle.string_ops.specs.PlanLaws as plan;

use crate::bytewise::{Bytewise, outs};
use crate::outs::one;
use crate::plan::{Plan, table_of};
use fst_core::{Action, Out, Table};
use std::alloc::Global;
use text_base::NoMemory;

/// Puts the first byte in upper case.
#[derive(Clone, Copy, Debug)]
pub struct First;

impl Plan for First {
    ghost use Rattle.string_ops.specs.First.{first_row, first_last};

    ghost states = { λ _. 2 };

    ghost rows = { λ _. first_rows };

    ghost lasts = { λ _. first_lasts };

    ghost no_rows = { λ _. plan.no_rows 2 first_row };

    ghost no_lasts = { λ _. plan.no_lasts 2 first_last };

    ghost some = { λ _. laws.some_states 1 };

    ghost three = { λ _. laws.first_three };

    ghost within = { λ _ s byte inside below. laws.first_within s byte };

    ghost one = { λ _. laws.first_one };

    ghost fixed = { λ _. laws.first_fixed };

    fn states(&self) -> u64 {
        2
    }

    fn choice(
        &self,
        alloc: Global,
        state: u64,
        byte: u8,
        turn: usize,
    ) -> Result<Option<Action>, NoMemory> {
        if turn > 0 {
            return Ok(None);
        }
        let out = if state == 0 {
            outs(Bytewise::Upper, alloc, byte)?
        } else {
            one(alloc, Out::Same)?
        };
        Ok(Some(Action { to: 1, out }))
    }

    fn last(&self, alloc: Global, state: u64) -> Result<Option<Vec<Out>>, NoMemory> {
        Ok(Some(Vec::new(alloc)))
    }
}

/// The machine of `Op::First`.
pub(crate) fn first_machine(alloc: Global) -> Result<Table, NoMemory>
    ensures { IfOk result
        (λ table. IsMachine table 0 (λ input output. output ≡ first_upper_of input)) }
{
    let table = table_of(alloc, &First)?;
    Ok(table)
}
