//! The machine of `trim`, `ltrim` and `rtrim`.

ghost use Rattle.std.specs.Prelude.{◌≡◌, ◌<◌, [], ◌∷◌, Some, IfOk, slice_get};
ghost use Rattle.string_functions.specs.Trim.{trim_of};
ghost use Rattle.string_ops.specs.Listed.{IsMachine};
ghost use Rattle.string_ops.specs.Plans.{choice_in};
ghost use Rattle.string_ops.specs.Trim.{kept_by, trim_by, trim_row, trim_last, trim_rows, trim_lasts};
ghost use Rattle.string_ops.specs.MachineLaws as laws;
ghost use Rattle.string_ops.specs.PlanLaws as plan;

use crate::outs::one;
use crate::plan::{Plan, table_of};
use fst_core::{Action, Out, Table};
use std::alloc::Global;
use string_functions::of_byte::is_stripped_byte;
use text_base::NoMemory;

/// Strips bytes from the ends that are asked for.
#[derive(Clone, Copy, Debug)]
pub struct Trim {
    pub left: bool,
    pub right: bool,
}

impl Plan for Trim {
    ghost states = { λ _. 4 };

    ghost rows = { λ trim. trim_rows trim.left trim.right };

    ghost lasts = { λ _. trim_lasts };

    ghost no_rows = { λ trim. plan.no_rows 4 (trim_row trim.left trim.right) };

    ghost no_lasts = { λ _. plan.no_lasts 4 trim_last };

    ghost some = { λ _. laws.some_states 3 };

    ghost three = { λ trim. laws.trim_three trim.left trim.right };

    ghost within = { λ trim s byte inside below. laws.trim_within trim.left trim.right s byte };

    ghost one = { λ _. laws.trim_one };

    ghost fixed = { λ _. laws.trim_fixed };

    fn states(&self) -> u64 {
        4
    }

    fn choice(
        &self,
        alloc: Global,
        state: u64,
        byte: u8,
        turn: usize,
    ) -> Result<Option<Action>, NoMemory> {
        chosen(alloc, *self, state, is_stripped_byte(byte), turn)
    }

    fn last(&self, alloc: Global, state: u64) -> Result<Option<Vec<Out>>, NoMemory> {
        if state == 2 {
            return Ok(None);
        }
        Ok(Some(Vec::new(alloc)))
    }
}

/// To the state, with the byte that is read.
fn keep(alloc: Global, to: u64) -> Result<Option<Action>, NoMemory>
    ensures { IfOk result (λ action. choice_in action ≡ Some (to, Out.Same ∷ [])) }
{
    let out = one(alloc, Out::Same)?;
    Ok(Some(Action { to, out }))
}

/// To the state, with nothing.
fn strip(alloc: Global, to: u64) -> Option<Action>
    ensures { choice_in result ≡ Some (to, []) }
{
    Some(Action {
        to,
        out: Vec::new(alloc),
    })
}

/// The choice behind a byte that stays.
fn kept(alloc: Global, right: bool, stripped: bool, turn: usize) -> Result<Option<Action>, NoMemory>
    ensures { IfOk result (λ action. choice_in action ≡ slice_get (kept_by right stripped) turn) }
{
    if right && stripped {
        match turn {
            0 => keep(alloc, 2),
            1 => Ok(strip(alloc, 3)),
            _ => Ok(None),
        }
    } else if turn == 0 {
        keep(alloc, 1)
    } else {
        Ok(None)
    }
}

/// The choice of a state for a byte that is to be stripped or not.
fn chosen(
    alloc: Global,
    trim: Trim,
    state: u64,
    stripped: bool,
    turn: usize,
) -> Result<Option<Action>, NoMemory>
    requires { state < 4 }
    ensures { IfOk result
        (λ action. choice_in action ≡ slice_get (trim_by trim.left trim.right state stripped) turn) }
{
    if state == 1 || (state == 0 && !trim.left) {
        return kept(alloc, trim.right, stripped, turn);
    }
    if turn > 0 {
        return Ok(None);
    }
    match state {
        0 if stripped => Ok(strip(alloc, 0)),
        2 if stripped => keep(alloc, 2),
        3 if stripped => Ok(strip(alloc, 3)),
        3 => Ok(None),
        _ => keep(alloc, 1),
    }
}

/// The machine of `Op::Trim`.
pub(crate) fn trim_machine(alloc: Global, left: bool, right: bool) -> Result<Table, NoMemory>
    ensures { IfOk result
        (λ table. IsMachine table 0 (λ input output. output ≡ trim_of left right input)) }
{
    let table = table_of(alloc, &Trim { left, right })?;
    Ok(table)
}
