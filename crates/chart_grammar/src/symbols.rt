//! Symbols that put out what a move does.

ghost use Rattle.std.specs.Prelude.{◌≡◌, ◌≢◌, ◌↔◌, ◌≤◌, ◌+◌, ℕ, not, take, map, IfOk, IfSome, IsSome, true, false, ◌<◌, length};
ghost use Rattle.text_base.specs.declared.letter.Letter.{Letter};
ghost use Rattle.text_base.specs.ByteRange.{InRange};
ghost use Rattle.fst_core.specs.Fits.{is_fixed};
ghost use Rattle.fst_core.specs.Letter.{letter_of};
ghost use Rattle.chart_grammar.specs.Outs.{Puts, IsOutput, ByOne, AreFixed};

use cfg_grammar::Symbol;
use fst_core::Out;
use std::alloc::Global;
use text_base::{ByteRange, NoMemory};

/// Whether what is put out depends on the byte that is read.
fn is_dependent(out: Out) -> bool
    ensures { result ≡ not (is_fixed out) }
{
    matches!(out, Out::Same | Out::Shift(_))
}

/// Whether nothing that is put out depends on the byte that is read.
pub fn are_fixed(out: &[Out]) -> bool
    ensures fixed { result ≡ true → AreFixed out.now }
    ensures some { result ≡ false → 0 < length out.now }
{
    for one in out {
        if is_dependent(*one) {
            return false;
        }
    }
    true
}

/// The bytes of the range plus a number, modulo 256; None where they are no range.
fn shifted(range: ByteRange, by: u8) -> Option<ByteRange>
    ensures shifts { IfSome result (λ r. (c : ℕ) → InRange r c ↔ ByOne range by c) }
    ensures single { range.lo ≡ range.hi → IsSome result }
{
    ByteRange::new(range.lo.wrapping_add(by), range.hi.wrapping_add(by))
}

/// The symbol for one thing put out as the bytes of a range are read; None where there is none.
fn symbol_of(range: ByteRange, out: Out) -> Option<Symbol>
    ensures puts { IfSome result
        (λ x. (c : Letter) → Puts x c ↔ ((b : ℕ) × InRange range b × (letter_of b out ≡ c))) }
    ensures single { range.lo ≡ range.hi → IsSome result }
{
    match out {
        Out::Same => Some(Symbol::Range(range)),
        Out::Byte(own) => Some(Symbol::Range(ByteRange { lo: own, hi: own })),
        Out::Token(token) => Some(Symbol::Token(token)),
        Out::Shift(by) => match shifted(range, by) {
            Some(r) => Some(Symbol::Range(r)),
            None => None,
        },
    }
}

/// Symbols that put out exactly what is put out as some byte of the range is read; None where the
/// letters depend on one another, which they do not where the range has one byte.
pub fn symbols_of(
    alloc: Global,
    range: ByteRange,
    out: &[Out],
) -> Result<Option<Vec<Symbol>>, NoMemory>
    ensures puts { IfOk result (λ o. IfSome o (λ v. IsOutput range out.now v.items)) }
    ensures single { range.lo ≡ range.hi → IfOk result (λ o. IsSome o) }
{
    let mut symbols = Vec::new(alloc);
    let mut depends = false;
    for one in out {
        if is_dependent(*one) {
            if depends && range.lo < range.hi {
                return Ok(None);
            }
            depends = true;
        }
        match symbol_of(range, *one) {
            Some(symbol) => symbols.push(symbol)?,
            None => return Ok(None),
        }
    }
    Ok(Some(symbols))
}
