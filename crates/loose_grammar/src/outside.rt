//! Systems that take texts from outside.

ghost use Rattle.std.specs.Prelude.{◌≡◌, ◌↔◌, true, false};
ghost use Rattle.std.specs.List.{list_all};
ghost use Rattle.loose_grammar.specs.Outside as spec;

use cfg_grammar::{Production, Right, Symbol};
use op_system::{Op, OpRule, OpSystem};

/// Whether the symbol is no range of several bytes.
fn is_single(symbol: Symbol) -> bool
    ensures { result ≡ spec.is_single symbol }
{
    match symbol {
        Symbol::Range(range) => range.lo == range.hi,
        Symbol::Token(_) | Symbol::Nt(_) => true,
    }
}

/// Whether no symbol on the right is a range of several bytes.
fn is_of_single_bytes(production: Production) -> bool
    ensures { result ≡ spec.is_of_single_bytes production }
{
    match production.right {
        Right::Empty => true,
        Right::One(symbol) => is_single(symbol),
        Right::Two(first, second) => is_single(first) && is_single(second),
    }
}

/// Whether no range of several bytes stands in the productions.
fn are_of_single_bytes(productions: &[Production]) -> bool
    ensures { result ≡ list_all spec.is_of_single_bytes productions.now }
{
    productions.iter().all(|p| is_of_single_bytes(*p))
}

/// Whether the operation is not the one that gives any text over its bytes.
fn is_known(op: &Op) -> bool
    ensures { result ≡ spec.is_known op.now }
{
    match op {
        Op::Any => false,
        Op::Same
        | Op::Html
        | Op::Replace { .. }
        | Op::Cut { .. }
        | Op::Factor
        | Op::Lower
        | Op::Upper
        | Op::First
        | Op::Trim { .. }
        | Op::Breaks
        | Op::Url
        | Op::RawUrl
        | Op::Slashes
        | Op::Piece { .. } => true,
    }
}

/// Whether none of the rules is by that operation.
fn are_known(rules: &[OpRule]) -> bool
    ensures { result ≡ list_all spec.is_by_known rules.now }
{
    rules.iter().all(|rule| is_known(&rule.op))
}

/// Whether texts from outside are taken by the system: by a range of several bytes, or by an
/// operation that gives any text over its bytes.
pub(crate) fn takes_outside(system: &OpSystem) -> bool
    ensures { result ≡ false
        ↔ ((list_all spec.is_of_single_bytes system.now.grammar.productions.items ≡ true)
        × (list_all spec.is_by_known system.now.ops.items ≡ true)) }
{
    !are_of_single_bytes(&system.grammar.productions) || !are_known(&system.ops)
}
