//! The machines that write each byte by itself: cases, encodings for URLs, slashes.

ghost use Rattle.std.specs.Prelude.{◌≡◌, ℕ, [], ◌∷◌, List, IfOk, map, if◌then◌else◌};
ghost use Rattle.fst_core.specs.declared.out.Out.{Out};
ghost use Rattle.string_functions.specs.Url.{percent_of_byte};
ghost use Rattle.string_ops.specs.Bytewise.{outs_of, bytewise_rows, bytewise_lasts, bytewise_of};
ghost use Rattle.string_ops.specs.Listed.{IsMachine};
ghost use Rattle.string_ops.specs.BytewiseLaws as laws;

use crate::outs::{one, two};
use crate::plan::{Plan, table_of};
use fst_core::{Action, Out, Table};
use std::alloc::Global;
use string_functions::of_byte::{hex_digit_of, is_kept_byte};
use text_base::NoMemory;

/// An operation that writes each byte by itself.
#[derive(Clone, Copy, Debug)]
pub enum Bytewise {
    /// `strtolower`.
    Lower,
    /// `strtoupper`.
    Upper,
    /// `urlencode`.
    Url,
    /// `rawurlencode`.
    RawUrl,
    /// `addslashes`.
    Slashes,
}

impl Plan for Bytewise {
    ghost states = { λ _. 1 };

    ghost rows = { bytewise_rows };

    ghost lasts = { λ _. bytewise_lasts };

    ghost no_rows = { laws.no_rows };

    ghost no_lasts = { λ kind. laws.no_lasts };

    ghost some = { λ kind. laws.some_state };

    ghost three = { laws.three_choices };

    ghost within = { laws.choices_within };

    ghost one = { λ kind. laws.one_last };

    ghost fixed = { λ kind. laws.lasts_fixed };

    fn states(&self) -> u64 {
        1
    }

    fn choice(
        &self,
        alloc: Global,
        state: u64,
        byte: u8,
        turn: usize,
    ) -> Result<Option<Action>, NoMemory> {
        if state > 0 || turn > 0 {
            return Ok(None);
        }
        let out = outs(*self, alloc, byte)?;
        Ok(Some(Action { to: 0, out }))
    }

    fn last(&self, alloc: Global, state: u64) -> Result<Option<Vec<Out>>, NoMemory> {
        if state > 0 {
            return Ok(None);
        }
        Ok(Some(Vec::new(alloc)))
    }
}

/// `%` and the two hexadecimal digits of the byte.
fn percent(alloc: Global, byte: u8) -> Result<Vec<Out>, NoMemory>
    ensures { IfOk result (λ put. put.items ≡ map Out.Byte (percent_of_byte byte)) }
{
    let high = hex_digit_of(byte / 16);
    let low = hex_digit_of(byte % 16);
    let mut out = two(alloc, Out::Byte(b'%'), Out::Byte(high))?;
    out.push(Out::Byte(low))?;
    Ok(out)
}

/// What is put out as the byte is read.
pub(crate) fn outs(kind: Bytewise, alloc: Global, byte: u8) -> Result<Vec<Out>, NoMemory>
    ensures { IfOk result (λ out. out.items ≡ outs_of kind byte) }
{
    match kind {
        Bytewise::Lower => one(alloc, shifted_if(byte >= b'A' && byte <= b'Z', 32)),
        Bytewise::Upper => one(alloc, shifted_if(byte >= b'a' && byte <= b'z', 224)),
        Bytewise::Url => url_outs(alloc, byte),
        Bytewise::RawUrl => raw_url_outs(alloc, byte),
        Bytewise::Slashes => slashes_outs(alloc, byte),
    }
}

/// The byte moved by a number, or itself.
fn shifted_if(moved: bool, by: u8) -> Out
    ensures { result ≡ (if moved then Out.Shift by else Out.Same) }
{
    if moved { Out::Shift(by) } else { Out::Same }
}

/// What `urlencode` puts out.
fn url_outs(alloc: Global, byte: u8) -> Result<Vec<Out>, NoMemory>
    ensures { IfOk result (λ out. out.items ≡ outs_of Bytewise.Url byte) }
{
    if is_kept_byte(byte) {
        one(alloc, Out::Same)
    } else if byte == b' ' {
        one(alloc, Out::Byte(b'+'))
    } else {
        percent(alloc, byte)
    }
}

/// What `rawurlencode` puts out.
fn raw_url_outs(alloc: Global, byte: u8) -> Result<Vec<Out>, NoMemory>
    ensures { IfOk result (λ out. out.items ≡ outs_of Bytewise.RawUrl byte) }
{
    if is_kept_byte(byte) || byte == b'~' {
        one(alloc, Out::Same)
    } else {
        percent(alloc, byte)
    }
}

/// What `addslashes` puts out.
fn slashes_outs(alloc: Global, byte: u8) -> Result<Vec<Out>, NoMemory>
    ensures { IfOk result (λ out. out.items ≡ outs_of Bytewise.Slashes byte) }
{
    if byte == b'\'' || byte == b'"' || byte == b'\\' {
        two(alloc, Out::Byte(b'\\'), Out::Same)
    } else if byte == 0 {
        two(alloc, Out::Byte(b'\\'), Out::Byte(b'0'))
    } else {
        one(alloc, Out::Same)
    }
}

/// The machine of an operation that writes each byte by itself.
pub(crate) fn bytewise_machine(alloc: Global, kind: Bytewise) -> Result<Table, NoMemory>
    ensures { IfOk result
        (λ table. IsMachine table 0 (λ input output. output ≡ bytewise_of kind input)) }
{
    let table = table_of(alloc, &kind)?;
    Ok(table)
}
