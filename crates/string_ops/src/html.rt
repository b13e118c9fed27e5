//! The machine of `htmlspecialchars`, which reads whole characters of UTF-8 alone.

ghost use Rattle.std.specs.Prelude.{◌≡◌, ◌<◌, ◌≤◌, IfOk, IsUtf8};
ghost use Rattle.string_functions.specs.Html.{html_of};
ghost use Rattle.string_ops.specs.Listed.{IsMachine};
ghost use Rattle.string_ops.specs.Html.{to_between, after_first_byte, utf8_after, html_put, html_row, html_last, html_rows, html_lasts};
ghost use Rattle.string_ops.specs.MachineLaws as laws;
ghost use Rattle.string_ops.specs.PlanLaws as plan;

use crate::outs::{literal, one};
use crate::plan::{Plan, table_of};
use fst_core::{Action, Out, Table};
use std::alloc::Global;
use text_base::NoMemory;

/// Writes references for what HTML reserves.
#[derive(Clone, Copy, Debug)]
pub struct Html;

impl Plan for Html {
    ghost states = { λ _. 8 };

    ghost rows = { λ _. html_rows };

    ghost lasts = { λ _. html_lasts };

    ghost no_rows = { λ _. plan.no_rows 8 html_row };

    ghost no_lasts = { λ _. plan.no_lasts 8 html_last };

    ghost some = { λ _. laws.some_states 7 };

    ghost three = { λ _. laws.html_three };

    ghost within = { λ _ s byte inside below. laws.html_within s byte };

    ghost one = { λ _. laws.html_one };

    ghost fixed = { λ _. laws.html_fixed };

    fn states(&self) -> u64 {
        8
    }

    fn choice(
        &self,
        alloc: Global,
        state: u64,
        byte: u8,
        turn: usize,
    ) -> Result<Option<Action>, NoMemory> {
        match next(state, byte) {
            Some(to) => {
                if turn > 0 {
                    return Ok(None);
                }
                let out = put(alloc, byte)?;
                Ok(Some(Action { to, out }))
            }
            None => Ok(None),
        }
    }

    fn last(&self, alloc: Global, state: u64) -> Result<Option<Vec<Out>>, NoMemory> {
        if state > 0 {
            return Ok(None);
        }
        Ok(Some(Vec::new(alloc)))
    }
}

/// The state, where the byte lies between the two.
fn next_between(low: u8, high: u8, to: u64, byte: u8) -> Option<u64>
    ensures { result ≡ to_between low high to byte }
{
    if low <= byte && byte <= high {
        Some(to)
    } else {
        None
    }
}

/// The state behind the first byte of a character.
fn next_first(byte: u8) -> Option<u64>
    ensures { result ≡ after_first_byte byte }
{
    if byte < 0x80 {
        Some(0)
    } else if byte < 0xC2 {
        None
    } else if byte < 0xE0 {
        Some(1)
    } else if byte == 0xE0 {
        Some(4)
    } else if byte == 0xED {
        Some(5)
    } else if byte < 0xF0 {
        Some(2)
    } else if byte == 0xF0 {
        Some(6)
    } else if byte < 0xF4 {
        Some(3)
    } else if byte == 0xF4 {
        Some(7)
    } else {
        None
    }
}

/// The state behind the byte; None where no character goes on so.
fn next(state: u64, byte: u8) -> Option<u64>
    ensures { result ≡ utf8_after state byte }
{
    match state {
        0 => next_first(byte),
        1 => next_between(0x80, 0xBF, 0, byte),
        2 => next_between(0x80, 0xBF, 1, byte),
        3 => next_between(0x80, 0xBF, 2, byte),
        4 => next_between(0xA0, 0xBF, 1, byte),
        5 => next_between(0x80, 0x9F, 1, byte),
        6 => next_between(0x90, 0xBF, 2, byte),
        7 => next_between(0x80, 0x8F, 2, byte),
        _ => None,
    }
}

/// What is put out as the byte is read.
fn put(alloc: Global, byte: u8) -> Result<Vec<Out>, NoMemory>
    ensures { IfOk result (λ out. out.items ≡ html_put byte) }
{
    match byte {
        b'&' => literal(alloc, "&amp;"),
        b'<' => literal(alloc, "&lt;"),
        b'>' => literal(alloc, "&gt;"),
        b'"' => literal(alloc, "&quot;"),
        b'\'' => literal(alloc, "&#039;"),
        _ => one(alloc, Out::Same),
    }
}

/// The machine of `Op::Html`.
pub(crate) fn html_machine(alloc: Global) -> Result<Table, NoMemory>
    ensures { IfOk result
        (λ table. IsMachine table 0 (λ input output. IsUtf8 input × (output ≡ html_of input))) }
{
    let table = table_of(alloc, &Html)?;
    Ok(table)
}
