//! Texts, written from their ends.

ghost use Rattle.std.specs.Prelude.{IfOk};
ghost use Rattle.system_writing.specs.Steps.{IsByte, PutsByte, PutsBytes, PutsText};

use crate::lines::{Lines, add_production};
use cfg_grammar::{Right, Symbol};
use given_texts::sum;
use text_base::{ByteRange, NoMemory, Nt};

/// The symbol of a byte.
fn byte_symbol(byte: u8) -> Symbol
    ensures { IsByte byte result }
{
    Symbol::Range(ByteRange { lo: byte, hi: byte })
}

/// Puts a byte before an end of a text.
fn put_byte(lines: &mut Lines, byte: u8, behind: Symbol) -> Result<Symbol, NoMemory>
    ensures { IfOk result (λ s. PutsByte lines.old lines.new byte behind s) }
{
    let number = lines.count;
    let count = sum(number, 1)?;
    add_production(lines, number, Right::Two(byte_symbol(byte), behind))?;
    lines.count = count;
    Ok(Symbol::Nt(Nt(number)))
}

/// Puts the bytes before an end of a text, the last of them first.
fn put_bytes(lines: &mut Lines, bytes: &[u8], behind: Symbol) -> Result<Symbol, NoMemory>
    ensures { IfOk result (λ s. PutsBytes lines.old lines.new bytes.now behind s) }
{
    let mut symbol = behind;
    let mut rest = bytes;
    while let Some((last, before)) = rest.split_last() {
        symbol = put_byte(lines, *last, symbol)?;
        rest = before;
    }
    Ok(symbol)
}

/// The symbol of a text, and none for the empty one.
pub(crate) fn put_text(lines: &mut Lines, text: &[u8]) -> Result<Option<Symbol>, NoMemory>
    ensures { IfOk result (λ s. PutsText lines.old lines.new text.now s) }
{
    match text.split_last() {
        None => Ok(None),
        Some((last, before)) => {
            let symbol = put_bytes(lines, before, byte_symbol(*last))?;
            Ok(Some(symbol))
        }
    }
}
