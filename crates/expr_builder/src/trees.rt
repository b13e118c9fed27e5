//! Trees of one, two and three values.

ghost use Rattle.std.specs.Prelude.{◌≡◌, ℕ, true, false, max, IfOk};
ghost use Rattle.php_syntax.specs.Trees.{plain_expr, call_expr, more_exprs, no_exprs};
ghost use Rattle.script_grammar.specs.Expressions as tree;
ghost use Rattle.expr_machine.specs.Values as plain;
ghost use Rattle.expr_builder.specs.Views.{plain_value};

use crate::value::Value;
use php_syntax::tree::Expr;
use script_grammar::operator::{Operator, Prefix};
use script_grammar::reserved::request_named;
use std::alloc::Global;
use text_base::limits::HEIGHT_LIMIT;
use text_base::{Bytes, NoMemory};

/// The tree of a variable: those of the request are their own.
#[tactic(auto, using(php_syntax::proofs::Views::views))]
pub(crate) fn variable_tree(name: Bytes) -> Expr
    ensures { plain_expr result ≡ tree.variable_tree name }
{
    match request_named(name.as_slice()) {
        Some(of) => Expr::Super(of),
        None => Expr::Var(name),
    }
}

/// A tree whose parts are at most so high; it is kept where it is at most 200 high.
pub(crate) fn node(expr: Expr, height: u32, place: bool) -> Value
    ensures { plain_value result ≡ plain.node_value (plain_expr expr) height place }
{
    if height < HEIGHT_LIMIT {
        return Value::Known {
            tree: expr,
            height: height + 1,
        };
    }
    Value::Tall { place }
}

// A call of a function of one argument.
#[tactic(auto, using(php_syntax::proofs::Views::views))]
fn call_of_one(alloc: Global, name: &[u8], argument: Expr) -> Result<Expr, NoMemory>
    ensures { IfOk result (λ e. plain_expr e
        ≡ call_expr name.now (more_exprs (plain_expr argument) no_exprs)) }
{
    let name = Bytes::from_slice(alloc, name)?;
    let mut arguments = Vec::new(alloc);
    arguments.push(argument)?;
    Ok(Expr::Call(name, arguments))
}

/// An operator before an operand. A cast is a call.
#[tactic(auto, using(php_syntax::proofs::Views::views))]
pub(crate) fn prefix_tree(alloc: Global, prefix: Prefix, operand: Expr) -> Result<Expr, NoMemory>
    ensures { IfOk result (λ e. plain_expr e ≡ tree.prefix_tree prefix (plain_expr operand)) }
{
    match prefix {
        Prefix::Not => Ok(Expr::Not(Box::new(alloc, operand)?)),
        Prefix::Neg => Ok(Expr::Neg(Box::new(alloc, operand)?)),
        Prefix::CastInt => call_of_one(alloc, b"intval", operand),
        Prefix::CastString => call_of_one(alloc, b"strval", operand),
    }
}

// Two operands in boxes.
fn boxes(alloc: Global, left: Expr, right: Expr) -> Result<(Box<Expr>, Box<Expr>), NoMemory>
    ensures { IfOk result (λ pair. (pair.0.value ≡ left) × (pair.1.value ≡ right)) }
{
    Ok((Box::new(alloc, left)?, Box::new(alloc, right)?))
}

/// An operator between two operands.
#[tactic(auto, using(php_syntax::proofs::Views::views))]
pub(crate) fn operator_tree(
    alloc: Global,
    operator: Operator,
    left: Expr,
    right: Expr,
) -> Result<Expr, NoMemory>
    ensures { IfOk result (λ e. plain_expr e
        ≡ tree.operator_tree operator (plain_expr left) (plain_expr right)) }
{
    match operator {
        Operator::Or => {
            let (left, right) = boxes(alloc, left, right)?;
            Ok(Expr::Or(left, right))
        }
        Operator::And => {
            let (left, right) = boxes(alloc, left, right)?;
            Ok(Expr::And(left, right))
        }
        Operator::Compare(sign) => {
            let (left, right) = boxes(alloc, left, right)?;
            Ok(Expr::Compare(sign, left, right))
        }
        Operator::Arith(sign) => {
            let (left, right) = boxes(alloc, left, right)?;
            Ok(Expr::Arith(sign, left, right))
        }
        Operator::Join => {
            let mut parts = Vec::new(alloc);
            parts.push(left)?;
            parts.push(right)?;
            Ok(Expr::Join(parts))
        }
    }
}
