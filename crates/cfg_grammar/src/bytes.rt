//! That the bytes of productions are below 256, as contracts see numbers.

ghost use Rattle.std.specs.Prelude.{◌≡◌, ◌<◌, length};
ghost use Rattle.text_base.specs.declared.byte_range.ByteRange as byte_range;
ghost use Rattle.cfg_grammar.specs.Bytes.{FirstHaveBytes, HasBytes};
ghost use Rattle.cfg_grammar.specs.declared.symbol.Symbol as symbols;

use crate::production::{Production, Right};
use crate::symbol::Symbol;

/// A byte.
fn byte_fits(byte: u8)
    ensures { byte < 256 }
{
    let _ = byte;
}

/// The bytes of a range.
fn symbol_fits(symbol: Symbol)
    ensures { (range : byte_range.ByteRange) → symbol ≡ symbols.Symbol.Range range
        → range.hi < 256 }
{
    match symbol {
        Symbol::Range(range) => byte_fits(range.hi),
        Symbol::Token(_) => {}
        Symbol::Nt(_) => {}
    }
}

/// The ranges of a production.
fn production_fits(p: Production)
    ensures { HasBytes p }
{
    match p.right {
        Right::Empty => {}
        Right::One(a) => symbol_fits(a),
        Right::Two(a, b) => {
            symbol_fits(a);
            symbol_fits(b);
        }
    }
}

/// The ranges of productions are of bytes, as contracts see numbers. It goes over the productions
/// and does nothing.
pub fn productions_fit(productions: &[Production])
    ensures { FirstHaveBytes productions.now (length productions.now) }
{
    for p in productions {
        production_fits(*p);
    }
}
