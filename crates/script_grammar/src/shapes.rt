//! What kinds of expressions stand where.

ghost use Rattle.std.specs.Prelude.{◌≡◌};
ghost use Rattle.php_syntax.specs.Trees.{plain_expr};
ghost use Rattle.script_grammar.specs.Rules as rule;
ghost use Rattle.script_grammar.specs.Statements as form;

use php_syntax::tree::Expr;

/// Whether an expression is a variable with subscripts, as an operand of `isset` and of `empty` has
/// to be.
#[tactic(auto, unfolding(php_syntax::specs::Trees::plain_expr))]
pub fn is_place(expr: &Expr) -> bool
    ensures { result ≡ rule.is_place (plain_expr expr.now) }
{
    match expr {
        Expr::Var(_) | Expr::Super(_) => true,
        Expr::Member(base, _) => is_place(base),
        Expr::Null | Expr::Flag(_) | Expr::Int(_) | Expr::Text(_) => false,
        Expr::Step { .. } | Expr::ArrayOf(_) | Expr::Join(_) | Expr::Neg(_) => false,
        Expr::Not(_) | Expr::Isset(_) | Expr::Empty(_) | Expr::Arith(..) => false,
        Expr::Compare(..) | Expr::And(..) | Expr::Or(..) | Expr::Coalesce(..) => false,
        Expr::Choice(..) | Expr::Assign(..) | Expr::Update(..) | Expr::Call(..) => false,
    }
}

// Whether an expression is an integer literal whose negation is an integer too.
#[tactic(auto, unfolding(php_syntax::specs::Trees::plain_expr))]
fn is_negatable(expr: &Expr) -> bool
    ensures { result ≡ form.is_negatable (plain_expr expr.now) }
{
    match expr {
        Expr::Int(number) => *number != i64::MIN,
        Expr::Var(_) | Expr::Super(_) | Expr::Member(..) => false,
        Expr::Null | Expr::Flag(_) | Expr::Text(_) => false,
        Expr::Step { .. } | Expr::ArrayOf(_) | Expr::Join(_) | Expr::Neg(_) => false,
        Expr::Not(_) | Expr::Isset(_) | Expr::Empty(_) | Expr::Arith(..) => false,
        Expr::Compare(..) | Expr::And(..) | Expr::Or(..) | Expr::Coalesce(..) => false,
        Expr::Choice(..) | Expr::Assign(..) | Expr::Update(..) | Expr::Call(..) => false,
    }
}

/// Whether an expression is an integer or a negated one, which `exit` takes as its status and does
/// not print.
#[tactic(auto, unfolding(php_syntax::specs::Trees::plain_expr))]
pub fn is_status(expr: &Expr) -> bool
    ensures { result ≡ form.is_status (plain_expr expr.now) }
{
    match expr {
        Expr::Int(_) => true,
        Expr::Neg(inner) => is_negatable(inner),
        Expr::Var(_) | Expr::Super(_) | Expr::Member(..) => false,
        Expr::Null | Expr::Flag(_) | Expr::Text(_) => false,
        Expr::Step { .. } | Expr::ArrayOf(_) | Expr::Join(_) => false,
        Expr::Not(_) | Expr::Isset(_) | Expr::Empty(_) | Expr::Arith(..) => false,
        Expr::Compare(..) | Expr::And(..) | Expr::Or(..) | Expr::Coalesce(..) => false,
        Expr::Choice(..) | Expr::Assign(..) | Expr::Update(..) | Expr::Call(..) => false,
    }
}
