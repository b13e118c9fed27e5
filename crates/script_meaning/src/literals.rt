//! Literals, by their trees.

ghost use Rattle.std.specs.Prelude.{◌≡◌, MatchOption};
ghost use Rattle.php_syntax.specs.Trees.{plain_expr, int_expr, neg_expr, text_expr};
ghost use Rattle.script_meaning.specs.Programs.{literal_value};
ghost use Rattle.script_meaning.specs.Literals.{IsNoNegative, IsNoNumber, IsNoText, plain_literal};

use php_syntax::tree::Expr;
use text_base::Bytes;

/// A literal without a sign before it, and null for every expression that is none.
#[derive(Clone, Copy, Debug)]
pub enum Literal<'a> {
    Null,
    Flag(bool),
    Int(i64),
    Text(&'a Bytes),
}

/// The number of an integer literal.
#[tactic(auto, using(php_syntax::proofs::Views::views))]
pub fn literal_number(expr: &Expr) -> Option<i64>
    ensures { MatchOption result (IsNoNumber (plain_expr expr.now))
        (λ number. plain_expr expr.now ≡ int_expr number) }
{
    match expr {
        Expr::Int(number) => Some(*number),
        _ => None,
    }
}

/// The bytes of a text literal.
#[tactic(auto, using(php_syntax::proofs::Views::views))]
pub fn literal_text(expr: &Expr) -> Option<&Bytes>
    ensures { MatchOption result (IsNoText (plain_expr expr.now))
        (λ text. plain_expr expr.now ≡ text_expr text.now) }
{
    match expr {
        Expr::Text(text) => Some(text),
        _ => None,
    }
}

/// The integer behind a `-`, where the expression is such.
#[tactic(auto, using(php_syntax::proofs::Views::views))]
pub fn literal_negative(expr: &Expr) -> Option<i64>
    ensures { MatchOption result (IsNoNegative (plain_expr expr.now))
        (λ number. plain_expr expr.now ≡ neg_expr (int_expr number)) }
{
    match expr {
        Expr::Neg(operand) => literal_number(operand),
        Expr::Null
        | Expr::Flag(_)
        | Expr::Int(_)
        | Expr::Text(_)
        | Expr::Var(_)
        | Expr::Super(_)
        | Expr::Member(_, _)
        | Expr::ArrayOf(_)
        | Expr::Join(_)
        | Expr::Not(_)
        | Expr::Arith(_, _, _)
        | Expr::Compare(_, _, _)
        | Expr::And(_, _)
        | Expr::Or(_, _)
        | Expr::Coalesce(_, _)
        | Expr::Choice(_, _, _)
        | Expr::Isset(_)
        | Expr::Empty(_)
        | Expr::Assign(_, _)
        | Expr::Update(_, _, _)
        | Expr::Step { .. }
        | Expr::Call(_, _) => None,
    }
}

/// The literal that an expression is, which is not `-` and an integer.
#[tactic(auto, using(php_syntax::proofs::Views::views), unfolding(crate::specs::Programs::literal_value))]
pub fn unsigned_literal(expr: &Expr) -> Literal<'_>
    requires { IsNoNegative (plain_expr expr.now) }
    ensures { plain_literal result ≡ literal_value (plain_expr expr.now) }
{
    match expr {
        Expr::Flag(truth) => Literal::Flag(*truth),
        Expr::Int(number) => Literal::Int(*number),
        Expr::Text(text) => Literal::Text(text),
        Expr::Null
        | Expr::Var(_)
        | Expr::Super(_)
        | Expr::Member(_, _)
        | Expr::ArrayOf(_)
        | Expr::Join(_)
        | Expr::Neg(_)
        | Expr::Not(_)
        | Expr::Arith(_, _, _)
        | Expr::Compare(_, _, _)
        | Expr::And(_, _)
        | Expr::Or(_, _)
        | Expr::Coalesce(_, _)
        | Expr::Choice(_, _, _)
        | Expr::Isset(_)
        | Expr::Empty(_)
        | Expr::Assign(_, _)
        | Expr::Update(_, _, _)
        | Expr::Step { .. }
        | Expr::Call(_, _) => Literal::Null,
    }
}
