//! Statements of their parts, each with the height of its highest part.

ghost use Rattle.std.specs.Prelude.{◌≡◌, max};
ghost use Rattle.php_syntax.specs.Trees.{plain_expr};
ghost use Rattle.expr_builder.specs.Views.{plain_value, plain_values};
ghost use Rattle.stmt_machine.specs.Made as plain;
ghost use Rattle.stmt_builder.specs.Views.{node_of, row_of, gathered, gathered_arms, maybe_expr};

use crate::body::{Arms, Row};
use crate::rows::Exprs;
use expr_builder::value::Value;
use expr_builder::values::Values;
use php_syntax::tree::{Expr, Stmt};
use script_grammar::shapes::is_status;
use text_base::Bytes;

/// An `echo`.
#[tactic(auto, using(php_syntax::proofs::Views::views))]
pub(crate) fn echo_node(row: Option<Exprs>) -> Option<(Stmt, u32)>
    ensures { node_of result ≡ plain.echo_node (gathered row) }
{
    let row = row?;
    Some((Stmt::Echo(row.exprs), row.height))
}

/// An expression as a statement.
#[tactic(auto, using(php_syntax::proofs::Views::views))]
pub(crate) fn run_node(value: Value) -> Option<(Stmt, u32)>
    ensures { node_of result ≡ plain.run_node (plain_value value) }
{
    match value {
        Value::Known { tree, height } => Some((Stmt::Run(tree), height)),
        _ => None,
    }
}

/// A `return` of a value.
#[tactic(auto, using(php_syntax::proofs::Views::views))]
pub(crate) fn return_node(value: Value) -> Option<(Stmt, u32)>
    ensures { node_of result ≡ plain.return_node (plain_value value) }
{
    match value {
        Value::Known { tree, height } => Some((Stmt::Return(Some(tree)), height)),
        _ => None,
    }
}

/// An `exit` of a value: what it prints, if the value is no status.
#[tactic(auto, using(php_syntax::proofs::Views::views))]
pub(crate) fn quit_node(value: Value) -> Option<(Stmt, u32)>
    ensures { node_of result ≡ plain.quit_node (plain_value value) }
{
    match value {
        Value::Known { tree, height } => {
            if is_status(&tree) {
                return Some((Stmt::Quit(None), 0));
            }
            Some((Stmt::Quit(Some(tree)), height))
        }
        _ => None,
    }
}

/// An `if`.
#[tactic(auto, using(php_syntax::proofs::Views::views))]
pub(crate) fn if_node(arms: Option<Arms>, last: Option<Row>) -> Option<(Stmt, u32)>
    ensures { node_of result ≡ plain.if_node (gathered_arms arms) (row_of last) }
{
    let arms = arms?;
    let last = last?;
    Some((
        Stmt::If(arms.arms, last.stmts),
        arms.height.max(last.height),
    ))
}

/// A `while`.
#[tactic(auto, using(php_syntax::proofs::Views::views))]
pub(crate) fn while_node(condition: Value, body: Option<Row>) -> Option<(Stmt, u32)>
    ensures { node_of result ≡ plain.while_node (plain_value condition) (row_of body) }
{
    let Value::Known { tree, height } = condition else {
        return None;
    };
    let body = body?;
    Some((Stmt::While(tree, body.stmts), height.max(body.height)))
}

/// A `do`.
#[tactic(auto, using(php_syntax::proofs::Views::views))]
pub(crate) fn do_node(body: Option<Row>, condition: Value) -> Option<(Stmt, u32)>
    ensures { node_of result ≡ plain.do_node (row_of body) (plain_value condition) }
{
    let body = body?;
    let Value::Known { tree, height } = condition else {
        return None;
    };
    Some((Stmt::DoWhile(body.stmts, tree), body.height.max(height)))
}

/// A `foreach`.
#[tactic(auto, using(php_syntax::proofs::Views::views))]
pub(crate) fn each_node(
    array: Value,
    key: Option<Bytes>,
    value: Bytes,
    body: Option<Row>,
) -> Option<(Stmt, u32)>
    ensures { node_of result ≡ plain.each_node (plain_value array) key value (row_of body) }
{
    let Value::Known { tree, height } = array else {
        return None;
    };
    let body = body?;
    Some((
        Stmt::Each(tree, key, value, body.stmts),
        height.max(body.height),
    ))
}

/// The condition of a `for`, if there is one, with its height.
pub(crate) fn maybe_value(mut row: Values) -> Option<(Option<Expr>, u32)>
    ensures { maybe_expr result ≡ plain.maybe_value (plain_values row) }
{
    let Some(first) = row.pop() else {
        return Some((None, 0));
    };
    if row.pop().is_some() {
        return None;
    }
    match first {
        Value::Known { tree, height } => Some((Some(tree), height)),
        _ => None,
    }
}

/// A `for`.
#[tactic(auto, using(php_syntax::proofs::Views::views))]
pub(crate) fn for_node(
    begin: Option<Exprs>,
    condition: Option<(Option<Expr>, u32)>,
    next: Option<Exprs>,
    body: Option<Row>,
) -> Option<(Stmt, u32)>
    ensures { node_of result ≡ plain.for_node (gathered begin) (maybe_expr condition)
        (gathered next) (row_of body) }
{
    let begin = begin?;
    let condition = condition?;
    let next = next?;
    let body = body?;
    let height = begin
        .height
        .max(condition.1.max(next.height.max(body.height)));
    Some((
        Stmt::For(begin.exprs, condition.0, next.exprs, body.stmts),
        height,
    ))
}
