//! The machine of `nl2br`.

ghost use Rattle.std.specs.Prelude.{◌≡◌, IfOk, Some};
ghost use Rattle.string_functions.specs.Breaks.{breaks_of};
ghost use Rattle.string_ops.specs.Listed.{IsMachine};
ghost use Rattle.string_ops.specs.Breaks.{is_second, breaks_next, breaks_put, breaks_rows, breaks_lasts};
ghost use Rattle.string_ops.specs.MachineLaws as laws;
ghost use Rattle.string_ops.specs.PlanLaws as plan;

use crate::outs::{literal, one};
use crate::plan::{Plan, table_of};
use fst_core::{Action, Out, Table};
use std::alloc::Global;
use string_functions::of_byte::is_line_end_byte;
use text_base::NoMemory;

/// Puts `<br />` before line ends.
#[derive(Clone, Copy, Debug)]
pub struct Breaks;

impl Plan for Breaks {
    ghost use Rattle.string_ops.specs.Breaks.{breaks_row, breaks_last};

    ghost states = { λ _. 3 };

    ghost rows = { λ _. breaks_rows };

    ghost lasts = { λ _. breaks_lasts };

    ghost no_rows = { λ _. plan.no_rows 3 breaks_row };

    ghost no_lasts = { λ _. plan.no_lasts 3 breaks_last };

    ghost some = { λ _. laws.some_states 2 };

    ghost three = { λ _. laws.breaks_three };

    ghost within = { λ _ s byte inside below. laws.breaks_within s byte };

    ghost one = { λ _. laws.breaks_one };

    ghost fixed = { λ _. laws.breaks_fixed };

    fn states(&self) -> u64 {
        3
    }

    fn choice(
        &self,
        alloc: Global,
        state: u64,
        byte: u8,
        turn: usize,
    ) -> Result<Option<Action>, NoMemory> {
        if turn > 0 {
            return Ok(None);
        }
        let out = put(alloc, state, byte)?;
        Ok(Some(Action {
            to: next(state, byte),
            out,
        }))
    }

    fn last(&self, alloc: Global, state: u64) -> Result<Option<Vec<Out>>, NoMemory> {
        Ok(Some(Vec::new(alloc)))
    }
}

/// Whether the byte is the second of a line end.
fn is_second_byte(state: u64, byte: u8) -> bool
    ensures { result ≡ is_second state byte }
{
    (state == 1 && byte == b'\n') || (state == 2 && byte == b'\r')
}

/// The state behind the byte.
fn next(state: u64, byte: u8) -> u64
    ensures { result ≡ breaks_next state byte }
{
    if is_second_byte(state, byte) {
        0
    } else if byte == b'\r' {
        1
    } else if byte == b'\n' {
        2
    } else {
        0
    }
}

/// What is put out as the byte is read.
fn put(alloc: Global, state: u64, byte: u8) -> Result<Vec<Out>, NoMemory>
    ensures { IfOk result (λ out. out.items ≡ breaks_put state byte) }
{
    if is_second_byte(state, byte) {
        one(alloc, Out::Same)
    } else if is_line_end_byte(byte) {
        let mut out = literal(alloc, "<br />")?;
        out.push(Out::Same)?;
        Ok(out)
    } else {
        one(alloc, Out::Same)
    }
}

/// The machine of `Op::Breaks`.
pub(crate) fn breaks_machine(alloc: Global) -> Result<Table, NoMemory>
    ensures { IfOk result (λ table. IsMachine table 0 (λ input output. output ≡ breaks_of input)) }
{
    let table = table_of(alloc, &Breaks)?;
    Ok(table)
}
