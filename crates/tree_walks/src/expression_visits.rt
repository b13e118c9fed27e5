//! The expressions in expressions.

ghost use Rattle.std.specs.Prelude.{◌≡◌, ◌++◌, OnOk};
ghost use Rattle.std.specs.List.{fold};
ghost use Rattle.php_syntax.specs.Trees.{plain_expr, exprs_of, items_of, path_of, boxed_of, maybe_of};
ghost use Rattle.program_expressions.specs.Collected.{itself, collected, maybe_collected, part_collected, item_collected, path_collected};

use crate::visitor::Visitor;
use php_syntax::tree::{Expr, Target};

// Two expressions, one after the other.
#[cycle(expressions)]
#[tactic(auto, using(crate::proofs::FoldLemmas::ends))]
fn visit_two<V: Visitor>(visitor: &mut V, left: &Expr, right: &Expr) -> Result<(), V::Stop>
    ensures { OnOk result (V.state visitor.new ≡ fold V.next (V.state visitor.old)
        (collected itself (plain_expr left.now) ++ collected itself (plain_expr right.now))) }
{
    visit_expr(visitor, left)?;
    visit_expr(visitor, right)
}

// An operand that may be left out.
#[cycle(expressions)]
#[tactic(auto, using(crate::proofs::FoldLemmas::ends), unfolding(program_expressions::specs::Collected::collected))]
fn visit_boxed<V: Visitor>(visitor: &mut V, middle: &Option<Box<Expr>>) -> Result<(), V::Stop>
    ensures { OnOk result (V.state visitor.new ≡ fold V.next (V.state visitor.old)
        (maybe_collected itself (boxed_of middle.now))) }
{
    match middle {
        Some(expr) => visit_expr(visitor, expr),
        None => Ok(()),
    }
}

/// An expression that may be left out.
#[cycle(expressions)]
#[tactic(auto, using(crate::proofs::FoldLemmas::ends), unfolding(program_expressions::specs::Collected::collected))]
pub fn visit_maybe<V: Visitor>(visitor: &mut V, expr: &Option<Expr>) -> Result<(), V::Stop>
    ensures { OnOk result (V.state visitor.new ≡ fold V.next (V.state visitor.old)
        (maybe_collected itself (maybe_of expr.now))) }
{
    match expr {
        Some(expr) => visit_expr(visitor, expr),
        None => Ok(()),
    }
}

/// Expressions, from the left.
#[cycle(expressions)]
#[tactic(auto, using(crate::proofs::FoldLemmas::ends), unfolding(program_expressions::specs::Collected::collected))]
pub fn visit_exprs<V: Visitor>(visitor: &mut V, exprs: &[Expr]) -> Result<(), V::Stop>
    ensures { OnOk result (V.state visitor.new ≡ fold V.next (V.state visitor.old)
        (part_collected itself (exprs_of exprs.now))) }
{
    for expr in exprs {
        visit_expr(visitor, expr)?;
    }
    Ok(())
}

// The items of an array, a key before its value.
#[cycle(expressions)]
#[tactic(auto, using(crate::proofs::FoldLemmas::ends), unfolding(program_expressions::specs::Collected::collected))]
fn visit_items<V: Visitor>(visitor: &mut V, items: &[(Option<Expr>, Expr)]) -> Result<(), V::Stop>
    ensures { OnOk result (V.state visitor.new ≡ fold V.next (V.state visitor.old)
        (item_collected itself (items_of items.now))) }
{
    for item in items {
        visit_maybe(visitor, &item.0)?;
        visit_expr(visitor, &item.1)?;
    }
    Ok(())
}

// The keys of a target.
#[cycle(expressions)]
#[tactic(auto, using(crate::proofs::FoldLemmas::ends), unfolding(program_expressions::specs::Collected::collected))]
fn visit_path<V: Visitor>(visitor: &mut V, keys: &[Option<Expr>]) -> Result<(), V::Stop>
    ensures { OnOk result (V.state visitor.new ≡ fold V.next (V.state visitor.old)
        (path_collected itself (path_of keys.now))) }
{
    for key in keys {
        visit_maybe(visitor, key)?;
    }
    Ok(())
}

// The keys of a target, and then the value.
#[cycle(expressions)]
#[tactic(auto, using(crate::proofs::FoldLemmas::ends))]
fn visit_assignment<V: Visitor>(
    visitor: &mut V,
    keys: &[Option<Expr>],
    value: &Expr,
) -> Result<(), V::Stop>
    ensures { OnOk result (V.state visitor.new ≡ fold V.next (V.state visitor.old)
        (path_collected itself (path_of keys.now) ++ collected itself (plain_expr value.now))) }
{
    visit_path(visitor, keys)?;
    visit_expr(visitor, value)
}

/// An expression, and then its parts from the left.
#[cycle(expressions)]
#[tactic(auto, using(php_syntax::proofs::Views::views, crate::proofs::FoldLemmas::ends), unfolding(program_expressions::specs::Collected::collected))]
pub fn visit_expr<V: Visitor>(visitor: &mut V, expr: &Expr) -> Result<(), V::Stop>
    ensures { OnOk result (V.state visitor.new ≡ fold V.next (V.state visitor.old)
        (collected itself (plain_expr expr.now))) }
{
    visitor.visit(expr)?;
    match expr {
        Expr::Null => Ok(()),
        Expr::Flag(_) => Ok(()),
        Expr::Int(_) => Ok(()),
        Expr::Text(_) => Ok(()),
        Expr::Var(_) => Ok(()),
        Expr::Super(_) => Ok(()),
        Expr::Member(base, key) => visit_two(visitor, base, key),
        Expr::ArrayOf(items) => visit_items(visitor, items.as_slice()),
        Expr::Join(parts) => visit_exprs(visitor, parts.as_slice()),
        Expr::Neg(operand) => visit_expr(visitor, operand),
        Expr::Not(operand) => visit_expr(visitor, operand),
        Expr::Arith(_, left, right) => visit_two(visitor, left, right),
        Expr::Compare(_, left, right) => visit_two(visitor, left, right),
        Expr::And(left, right) => visit_two(visitor, left, right),
        Expr::Or(left, right) => visit_two(visitor, left, right),
        Expr::Coalesce(left, right) => visit_two(visitor, left, right),
        Expr::Choice(condition, middle, other) => {
            visit_expr(visitor, condition)?;
            visit_boxed(visitor, middle)?;
            visit_expr(visitor, other)
        }
        Expr::Isset(places) => visit_exprs(visitor, places.as_slice()),
        Expr::Empty(place) => visit_expr(visitor, place),
        Expr::Assign(target, value) => visit_assignment(visitor, target.path.as_slice(), value),
        Expr::Update(_, target, value) => visit_assignment(visitor, target.path.as_slice(), value),
        Expr::Step { .. } => Ok(()),
        Expr::Call(_, arguments) => visit_exprs(visitor, arguments.as_slice()),
    }
}
