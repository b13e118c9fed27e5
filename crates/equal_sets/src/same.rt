//! Whether two values are one. What is told apart by these is told apart by no clause.

ghost use Rattle.std.specs.Prelude.{◌≡◌, ◌↔◌, IsTrue};

use cfg_grammar::{Production, Right, Symbol};
use op_system::Op;
use text_base::{ByteRange, Nt};

/// Whether both are one nonterminal.
pub fn is_same_nt(a: Nt, b: Nt) -> bool
    ensures { IsTrue result ↔ (a ≡ b) }
{
    a == b
}

/// Whether both are one operation.
pub fn is_same_op(a: &Op, b: &Op) -> bool
    ensures { IsTrue result → a.now ≡ b.now }
{
    a == b
}

/// Whether both are one range.
fn is_same_range(a: ByteRange, b: ByteRange) -> bool
    ensures { IsTrue result → a ≡ b }
{
    a == b
}

/// Whether both are one range or one nonterminal.
fn is_same_symbol(a: Symbol, b: Symbol) -> bool
    ensures { IsTrue result → a ≡ b }
{
    match (a, b) {
        (Symbol::Range(r), Symbol::Range(q)) => is_same_range(r, q),
        (Symbol::Nt(x), Symbol::Nt(y)) => is_same_nt(x, y),
        _ => false,
    }
}

/// Whether both are one right side, of ranges and nonterminals.
pub fn is_same_right(a: Right, b: Right) -> bool
    ensures { IsTrue result → a ≡ b }
{
    match (a, b) {
        (Right::Empty, Right::Empty) => true,
        (Right::One(x), Right::One(y)) => is_same_symbol(x, y),
        (Right::Two(x, u), Right::Two(y, v)) => is_same_symbol(x, y) && is_same_symbol(u, v),
        _ => false,
    }
}

/// Whether both are one production, of ranges and nonterminals.
pub fn is_same_production(a: Production, b: Production) -> bool
    ensures { IsTrue result → a ≡ b }
{
    is_same_nt(a.left, b.left) && is_same_right(a.right, b.right)
}
