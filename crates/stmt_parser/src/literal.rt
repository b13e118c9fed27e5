//! Literals as defaults of parameters.

ghost use Rattle.std.specs.Prelude.{◌≡◌, ◌<◌, IfOk};
ghost use Rattle.text_base.specs.declared.limits.TheConstants.{HEIGHT_LIMIT};
ghost use Rattle.php_syntax.specs.Trees.{plain_expr, neg_expr, int_expr};
ghost use Rattle.php_syntax.specs.Height.{height};
ghost use Rattle.stmt_parser.specs.Literals.{literal_tree};

use php_syntax::tree::Expr;
use std::alloc::Global;
use text_base::{Bytes, NoMemory};

/// A literal as the default of a parameter.
#[derive(Debug, Drop)]
pub(crate) enum Literal<'a> {
    /// A number behind a minus.
    Minus(i64),
    /// A number.
    Int(i64),
    /// A text.
    Text(&'a Bytes),
    /// `true` or `false`.
    Flag(bool),
    /// `null`
    Null,
}

// A number behind a minus.
#[tactic(auto, using(php_syntax::proofs::Views::views))]
fn negated(alloc: Global, number: i64) -> Result<Expr, NoMemory>
    ensures { IfOk result (λ e. plain_expr e ≡ neg_expr (int_expr number)) }
{
    Ok(Expr::Neg(Box::new(alloc, Expr::Int(number))?))
}

/// The tree of a literal, and how high it is.
#[tactic(auto, using(php_syntax::proofs::Views::views), unfolding(php_syntax::specs::Height::height))]
pub(crate) fn tree_of(alloc: Global, literal: Literal) -> Result<(Expr, u32), NoMemory>
    ensures { IfOk result (λ made.
        (plain_expr made.0 ≡ literal_tree literal.entry) ×
        (made.1 ≡ height (literal_tree literal.entry)) × (made.1 < HEIGHT_LIMIT)) }
{
    match literal {
        Literal::Minus(number) => {
            let tree = negated(alloc, number)?;
            Ok((tree, 2))
        }
        Literal::Int(number) => Ok((Expr::Int(number), 1)),
        Literal::Text(text) => {
            let text = text.copy(alloc)?;
            Ok((Expr::Text(text), 1))
        }
        Literal::Flag(flag) => Ok((Expr::Flag(flag), 1)),
        Literal::Null => Ok((Expr::Null, 1)),
    }
}
