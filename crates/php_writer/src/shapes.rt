//! What kinds of expressions stand where.

ghost use Rattle.std.specs.Prelude.{◌≡◌};
ghost use Rattle.php_syntax.specs.Trees.{plain_expr, exprs_of, path_of, maybe_of};
ghost use Rattle.script_grammar.specs.Rules as spec;
ghost use Rattle.spellable.specs.Spellable as spelled;

use crate::names::is_own_name;
use php_syntax::tree::Expr;
use script_grammar::shapes::is_place;

// Whether an integer is written as a literal.
fn is_unsigned(number: &i64) -> bool
    ensures { result ≡ spelled.is_unsigned number.now }
{
    *number >= 0
}

/// Whether an integer is written as a literal or is the least one.
pub fn is_integer(number: &i64) -> bool
    ensures { result ≡ spelled.is_integer number.now }
{
    *number >= 0 || *number == i64::MIN
}

/// Whether each is a variable with subscripts.
pub fn are_places(exprs: &[Expr]) -> bool
    ensures { result ≡ spec.all_places (exprs_of exprs.now) }
{
    for expr in exprs {
        if !is_place(expr) {
            return false;
        }
    }
    true
}

// Whether a template can have the expression as a key.
#[tactic(auto, unfolding(php_syntax::specs::Trees::plain_expr))]
fn is_part_key(expr: &Expr) -> bool
    ensures { result ≡ spelled.is_part_key (plain_expr expr.now) }
{
    match expr {
        Expr::Text(_) | Expr::Super(_) => true,
        Expr::Int(number) => is_unsigned(number),
        Expr::Var(name) => is_own_name(name.as_slice()),
        Expr::Null | Expr::Flag(_) | Expr::Member(..) | Expr::ArrayOf(_) => false,
        Expr::Step { .. } | Expr::Join(_) | Expr::Neg(_) | Expr::Not(_) => false,
        Expr::Isset(_) | Expr::Empty(_) | Expr::Arith(..) | Expr::Compare(..) => false,
        Expr::And(..) | Expr::Or(..) | Expr::Coalesce(..) | Expr::Choice(..) => false,
        Expr::Assign(..) | Expr::Update(..) | Expr::Call(..) => false,
    }
}

// Whether a template can read the expression.
#[tactic(auto, unfolding(php_syntax::specs::Trees::plain_expr))]
fn is_read(expr: &Expr) -> bool
    ensures { result ≡ spelled.is_read (plain_expr expr.now) }
{
    match expr {
        Expr::Super(_) => true,
        Expr::Var(name) => is_own_name(name.as_slice()),
        Expr::Member(base, key) => is_read(base) && is_part_key(key),
        Expr::Null | Expr::Flag(_) | Expr::Int(_) | Expr::Text(_) => false,
        Expr::Step { .. } | Expr::ArrayOf(_) | Expr::Join(_) | Expr::Neg(_) => false,
        Expr::Not(_) | Expr::Isset(_) | Expr::Empty(_) | Expr::Arith(..) => false,
        Expr::Compare(..) | Expr::And(..) | Expr::Or(..) | Expr::Coalesce(..) => false,
        Expr::Choice(..) | Expr::Assign(..) | Expr::Update(..) | Expr::Call(..) => false,
    }
}

/// Whether a join can have these parts.
#[tactic(auto, using(spellable::proofs::ShapeLemmas::one_part_is, spellable::proofs::ShapeLemmas::parts_are))]
pub fn are_parts(parts: &[Expr]) -> bool
    ensures { result ≡ spelled.are_parts (exprs_of parts.now) }
{
    match parts.split_first() {
        None => false,
        Some((first, rest)) => !rest.is_empty() || is_read(first),
    }
}

// Whether an expression is an integer literal.
#[tactic(auto, unfolding(php_syntax::specs::Trees::plain_expr))]
fn is_unsigned_literal(expr: &Expr) -> bool
    ensures { result ≡ spelled.is_unsigned_literal (plain_expr expr.now) }
{
    match expr {
        Expr::Int(number) => is_unsigned(number),
        Expr::Null | Expr::Flag(_) | Expr::Text(_) | Expr::Var(_) | Expr::Super(_) => false,
        Expr::Member(..) | Expr::ArrayOf(_) | Expr::Join(_) | Expr::Neg(_) => false,
        Expr::Step { .. } | Expr::Not(_) | Expr::Isset(_) | Expr::Empty(_) => false,
        Expr::Arith(..) | Expr::Compare(..) | Expr::And(..) | Expr::Or(..) => false,
        Expr::Coalesce(..) | Expr::Choice(..) | Expr::Assign(..) => false,
        Expr::Update(..) | Expr::Call(..) => false,
    }
}

// Whether an expression is a literal.
#[tactic(auto, unfolding(php_syntax::specs::Trees::plain_expr))]
fn is_literal(expr: &Expr) -> bool
    ensures { result ≡ spelled.is_literal (plain_expr expr.now) }
{
    match expr {
        Expr::Null | Expr::Flag(_) | Expr::Text(_) => true,
        Expr::Int(number) => is_unsigned(number),
        Expr::Neg(operand) => is_unsigned_literal(operand),
        Expr::Var(_) | Expr::Super(_) | Expr::Member(..) | Expr::ArrayOf(_) => false,
        Expr::Step { .. } | Expr::Join(_) | Expr::Not(_) | Expr::Isset(_) => false,
        Expr::Empty(_) | Expr::Arith(..) | Expr::Compare(..) | Expr::And(..) => false,
        Expr::Or(..) | Expr::Coalesce(..) | Expr::Choice(..) | Expr::Assign(..) => false,
        Expr::Update(..) | Expr::Call(..) => false,
    }
}

/// Whether a parameter can have the default.
pub fn is_default(value: &Option<Expr>) -> bool
    ensures { result ≡ spelled.is_default (maybe_of value.now) }
{
    match value {
        Some(expr) => is_literal(expr),
        None => true,
    }
}

/// Whether each place of a path has a key.
pub fn all_keyed(keys: &[Option<Expr>]) -> bool
    ensures { result ≡ spec.all_keyed (path_of keys.now) }
{
    for key in keys {
        if key.is_none() {
            return false;
        }
    }
    true
}

/// Whether each place of a path but the last has a key.
#[tactic(auto, using(spellable::proofs::ShapeLemmas::last_key))]
pub fn keyed_before_last(keys: &[Option<Expr>]) -> bool
    ensures { result ≡ spec.keyed_before_last (path_of keys.now) }
{
    match keys.split_last() {
        None => true,
        Some((_, front)) => all_keyed(front),
    }
}

/// Whether there is an expression.
#[tactic(auto, using(spellable::proofs::ShapeLemmas::some_exprs, spellable::proofs::ShapeLemmas::no_exprs_are))]
pub fn is_some(exprs: &[Expr]) -> bool
    ensures { result ≡ spelled.is_some_exprs (exprs_of exprs.now) }
{
    !exprs.is_empty()
}
