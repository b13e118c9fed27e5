//! The expressions in statements, and in the bodies of functions.

ghost use Rattle.std.specs.Prelude.{◌≡◌, ◌++◌, OnOk};
ghost use Rattle.std.specs.List.{fold};
ghost use Rattle.php_syntax.specs.Trees.{plain_expr, plain_stmt, stmts_of, arms_of, exprs_of, maybe_of, params_of_list, functions_of_list};
ghost use Rattle.program_expressions.specs.Collected.{itself, collected, maybe_collected, part_collected, key_collected, collected_of, stmts_collected, arms_collected, bodies_collected, defaults_collected, functions_collected};

use crate::expression_visits::{visit_expr, visit_exprs, visit_maybe};
use crate::visitor::Visitor;
use php_syntax::tree::{Expr, FunctionDef, Param, Stmt};
use text_base::Bytes;

/// The expressions of statements, in their order.
#[cycle(statements)]
#[tactic(auto, using(crate::proofs::FoldLemmas::ends), unfolding(program_expressions::specs::Collected::collected_of))]
pub fn visit_stmts<V: Visitor>(visitor: &mut V, stmts: &[Stmt]) -> Result<(), V::Stop>
    ensures { OnOk result (V.state visitor.new ≡ fold V.next (V.state visitor.old)
        (stmts_collected itself (stmts_of stmts.now))) }
{
    for stmt in stmts {
        visit_stmt(visitor, stmt)?;
    }
    Ok(())
}

// Of the arms of an `if`: in each its condition and then its body.
#[cycle(statements)]
#[tactic(auto, using(crate::proofs::FoldLemmas::ends), unfolding(program_expressions::specs::Collected::collected_of))]
fn visit_arms<V: Visitor>(visitor: &mut V, arms: &[(Expr, Vec<Stmt>)]) -> Result<(), V::Stop>
    ensures { OnOk result (V.state visitor.new ≡ fold V.next (V.state visitor.old)
        (arms_collected itself (arms_of arms.now))) }
{
    for arm in arms {
        visit_expr(visitor, &arm.0)?;
        visit_stmts(visitor, arm.1.as_slice())?;
    }
    Ok(())
}

// What stands before the body of a `for`.
#[tactic(auto, using(crate::proofs::FoldLemmas::ends))]
fn visit_head<V: Visitor>(
    visitor: &mut V,
    begin: &[Expr],
    test: &Option<Expr>,
    next: &[Expr],
) -> Result<(), V::Stop>
    ensures { OnOk result (V.state visitor.new ≡ fold V.next (V.state visitor.old)
        (part_collected itself (exprs_of begin.now) ++ (maybe_collected itself (maybe_of test.now)
        ++ part_collected itself (exprs_of next.now)))) }
{
    visit_exprs(visitor, begin)?;
    visit_maybe(visitor, test)?;
    visit_exprs(visitor, next)
}

// The variable for the keys of a `foreach`, if it has one.
#[tactic(auto, using(crate::proofs::FoldLemmas::ends))]
fn visit_key<V: Visitor>(visitor: &mut V, key: &Option<Bytes>) -> Result<(), V::Stop>
    ensures { OnOk result (V.state visitor.new ≡ fold V.next (V.state visitor.old)
        (key_collected itself key.now)) }
{
    match key {
        Some(name) => visitor.visit_variable(name),
        None => Ok(()),
    }
}

// Of a statement.
#[cycle(statements)]
#[tactic(auto, using(php_syntax::proofs::Views::views, crate::proofs::FoldLemmas::ends), unfolding(program_expressions::specs::Collected::collected_of))]
fn visit_stmt<V: Visitor>(visitor: &mut V, stmt: &Stmt) -> Result<(), V::Stop>
    ensures { OnOk result (V.state visitor.new ≡ fold V.next (V.state visitor.old)
        (collected_of itself (plain_stmt stmt.now))) }
{
    match stmt {
        Stmt::Echo(exprs) => visit_exprs(visitor, exprs.as_slice()),
        Stmt::Run(expr) => visit_expr(visitor, expr),
        Stmt::If(arms, otherwise) => {
            visit_arms(visitor, arms.as_slice())?;
            visit_stmts(visitor, otherwise.as_slice())
        }
        Stmt::While(test, body) => {
            visit_expr(visitor, test)?;
            visit_stmts(visitor, body.as_slice())
        }
        Stmt::DoWhile(body, test) => {
            visit_stmts(visitor, body.as_slice())?;
            visit_expr(visitor, test)
        }
        Stmt::For(begin, test, next, body) => {
            visit_head(visitor, begin.as_slice(), test, next.as_slice())?;
            visit_stmts(visitor, body.as_slice())
        }
        Stmt::Each(array, key, value, body) => {
            visit_expr(visitor, array)?;
            visit_key(visitor, key)?;
            visitor.visit_variable(value)?;
            visit_stmts(visitor, body.as_slice())
        }
        Stmt::Return(value) => visit_maybe(visitor, value),
        Stmt::Quit(value) => visit_maybe(visitor, value),
        Stmt::Inline(_) => Ok(()),
        Stmt::Break => Ok(()),
        Stmt::Continue => Ok(()),
        Stmt::Include(_) => Ok(()),
    }
}

/// The expressions of the bodies of functions, in their order.
#[tactic(auto, using(crate::proofs::FoldLemmas::ends), unfolding(program_expressions::specs::Collected::bodies_collected))]
pub fn visit_bodies<V: Visitor>(visitor: &mut V, functions: &[FunctionDef]) -> Result<(), V::Stop>
    ensures { OnOk result (V.state visitor.new ≡ fold V.next (V.state visitor.old)
        (bodies_collected itself (functions_of_list functions.now))) }
{
    for function in functions {
        visit_stmts(visitor, function.body.as_slice())?;
    }
    Ok(())
}

// The defaults of parameters, in their order.
#[tactic(auto, using(crate::proofs::FoldLemmas::ends), unfolding(program_expressions::specs::Collected::defaults_collected))]
fn visit_defaults<V: Visitor>(visitor: &mut V, params: &[Param]) -> Result<(), V::Stop>
    ensures { OnOk result (V.state visitor.new ≡ fold V.next (V.state visitor.old)
        (defaults_collected itself (params_of_list params.now))) }
{
    for param in params {
        visit_maybe(visitor, &param.default)?;
    }
    Ok(())
}

/// The expressions of functions: of each its defaults and then those of its body.
#[tactic(auto, using(crate::proofs::FoldLemmas::ends), unfolding(program_expressions::specs::Collected::functions_collected))]
pub fn visit_functions<V: Visitor>(
    visitor: &mut V,
    functions: &[FunctionDef],
) -> Result<(), V::Stop>
    ensures { OnOk result (V.state visitor.new ≡ fold V.next (V.state visitor.old)
        (functions_collected itself (functions_of_list functions.now))) }
{
    for function in functions {
        visit_defaults(visitor, function.params.as_slice())?;
        visit_stmts(visitor, function.body.as_slice())?;
    }
    Ok(())
}
