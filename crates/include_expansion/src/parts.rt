//! Statements that are put behind others: copies of those in which no statement stands, and of
//! others whose bodies are there. None is inlined, so that none of their values keeps room on the
//! stack while bodies are expanded.

ghost use Rattle.std.specs.Prelude.{◌≡◌, ◌++◌, [], ◌∷◌, OnOk};
ghost use Rattle.php_syntax.specs.Trees.{plain_expr, plain_stmt, stmts_of, arms_of, exprs_of, maybe_of, no_stmts, more_stmts, inline_stmt, echo_stmt, run_stmt, break_stmt, continue_stmt, return_stmt, quit_stmt, if_stmt, while_stmt, do_while_stmt, for_stmt, each_stmt};
ghost use Rattle.program_rules.specs.Bodies.{followed_by};

use php_syntax::tree::{Expr, Stmt};
use std::alloc::Global;
use text_base::{Bytes, NoMemory};
use tree_walks::{copy_expr, copy_exprs, copy_maybe, copy_variable};

// One more statement.
#[tactic(auto, using(crate::proofs::Followed::ends))]
fn put(out: &mut Vec<Stmt>, stmt: Stmt) -> Result<(), NoMemory>
    ensures { OnOk result
        (stmts_of out.new.items
        ≡ followed_by (stmts_of out.old.items) (more_stmts (plain_stmt stmt) no_stmts)) }
{
    out.push(stmt)?;
    Ok(())
}

/// The bytes outside PHP.
#[inline(never)]
#[tactic(auto, using(php_syntax::proofs::Views::views))]
pub(crate) fn put_inline(alloc: Global, bytes: &Bytes, out: &mut Vec<Stmt>) -> Result<(), NoMemory>
    ensures { OnOk result (stmts_of out.new.items ≡ followed_by (stmts_of out.old.items)
        (more_stmts (inline_stmt bytes.now) no_stmts)) }
{
    let bytes = bytes.copy(alloc)?;
    put(out, Stmt::Inline(bytes))
}

/// `echo`
#[inline(never)]
#[tactic(auto, using(php_syntax::proofs::Views::views))]
pub(crate) fn put_echo(alloc: Global, exprs: &[Expr], out: &mut Vec<Stmt>) -> Result<(), NoMemory>
    ensures { OnOk result (stmts_of out.new.items ≡ followed_by (stmts_of out.old.items)
        (more_stmts (echo_stmt (exprs_of exprs.now)) no_stmts)) }
{
    let exprs = copy_exprs(alloc, exprs)?;
    put(out, Stmt::Echo(exprs))
}

/// An expression as a statement.
#[inline(never)]
#[tactic(auto, using(php_syntax::proofs::Views::views))]
pub(crate) fn put_run(alloc: Global, expr: &Expr, out: &mut Vec<Stmt>) -> Result<(), NoMemory>
    ensures { OnOk result (stmts_of out.new.items ≡ followed_by (stmts_of out.old.items)
        (more_stmts (run_stmt (plain_expr expr.now)) no_stmts)) }
{
    let expr = copy_expr(alloc, expr)?;
    put(out, Stmt::Run(expr))
}

/// `break`
#[inline(never)]
#[tactic(auto, using(php_syntax::proofs::Views::views))]
pub(crate) fn put_break(out: &mut Vec<Stmt>) -> Result<(), NoMemory>
    ensures { OnOk result (stmts_of out.new.items ≡ followed_by (stmts_of out.old.items)
        (more_stmts break_stmt no_stmts)) }
{
    put(out, Stmt::Break)
}

/// `continue`
#[inline(never)]
#[tactic(auto, using(php_syntax::proofs::Views::views))]
pub(crate) fn put_continue(out: &mut Vec<Stmt>) -> Result<(), NoMemory>
    ensures { OnOk result (stmts_of out.new.items ≡ followed_by (stmts_of out.old.items)
        (more_stmts continue_stmt no_stmts)) }
{
    put(out, Stmt::Continue)
}

/// `return`
#[inline(never)]
#[tactic(auto, using(php_syntax::proofs::Views::views))]
pub(crate) fn put_return(
    alloc: Global,
    value: &Option<Expr>,
    out: &mut Vec<Stmt>,
) -> Result<(), NoMemory>
    ensures { OnOk result (stmts_of out.new.items ≡ followed_by (stmts_of out.old.items)
        (more_stmts (return_stmt (maybe_of value.now)) no_stmts)) }
{
    let value = copy_maybe(alloc, value)?;
    put(out, Stmt::Return(value))
}

/// `exit` and `die`
#[inline(never)]
#[tactic(auto, using(php_syntax::proofs::Views::views))]
pub(crate) fn put_quit(
    alloc: Global,
    value: &Option<Expr>,
    out: &mut Vec<Stmt>,
) -> Result<(), NoMemory>
    ensures { OnOk result (stmts_of out.new.items ≡ followed_by (stmts_of out.old.items)
        (more_stmts (quit_stmt (maybe_of value.now)) no_stmts)) }
{
    let value = copy_maybe(alloc, value)?;
    put(out, Stmt::Quit(value))
}

/// An arm of an `if`, with this body.
#[inline(never)]
pub(crate) fn put_arm(
    alloc: Global,
    test: &Expr,
    body: Vec<Stmt>,
    arms: &mut Vec<(Expr, Vec<Stmt>)>,
) -> Result<(), NoMemory>
    ensures { OnOk result ((copy : Expr) × (plain_expr copy ≡ plain_expr test.now)
        × (arms.new.items ≡ arms.old.items ++ (copy, body) ∷ [])) }
{
    let test = copy_expr(alloc, test)?;
    arms.push((test, body))?;
    Ok(())
}

/// `if`
#[inline(never)]
#[tactic(auto, using(php_syntax::proofs::Views::views))]
pub(crate) fn put_if(
    arms: Vec<(Expr, Vec<Stmt>)>,
    otherwise: Vec<Stmt>,
    out: &mut Vec<Stmt>,
) -> Result<(), NoMemory>
    ensures { OnOk result (stmts_of out.new.items ≡ followed_by (stmts_of out.old.items)
        (more_stmts (if_stmt (arms_of arms.items) (stmts_of otherwise.items)) no_stmts)) }
{
    put(out, Stmt::If(arms, otherwise))
}

/// `while`
#[inline(never)]
#[tactic(auto, using(php_syntax::proofs::Views::views))]
pub(crate) fn put_while(
    alloc: Global,
    test: &Expr,
    body: Vec<Stmt>,
    out: &mut Vec<Stmt>,
) -> Result<(), NoMemory>
    ensures { OnOk result (stmts_of out.new.items ≡ followed_by (stmts_of out.old.items)
        (more_stmts (while_stmt (plain_expr test.now) (stmts_of body.items)) no_stmts)) }
{
    let test = copy_expr(alloc, test)?;
    put(out, Stmt::While(test, body))
}

/// `do` .. `while`
#[inline(never)]
#[tactic(auto, using(php_syntax::proofs::Views::views))]
pub(crate) fn put_do_while(
    alloc: Global,
    body: Vec<Stmt>,
    test: &Expr,
    out: &mut Vec<Stmt>,
) -> Result<(), NoMemory>
    ensures { OnOk result (stmts_of out.new.items ≡ followed_by (stmts_of out.old.items)
        (more_stmts (do_while_stmt (stmts_of body.items) (plain_expr test.now)) no_stmts)) }
{
    let test = copy_expr(alloc, test)?;
    put(out, Stmt::DoWhile(body, test))
}

/// `for`
#[inline(never)]
#[tactic(auto, using(php_syntax::proofs::Views::views))]
pub(crate) fn put_for(
    alloc: Global,
    head: (&[Expr], &Option<Expr>, &[Expr]),
    body: Vec<Stmt>,
    out: &mut Vec<Stmt>,
) -> Result<(), NoMemory>
    ensures { OnOk result (stmts_of out.new.items ≡ followed_by (stmts_of out.old.items)
        (more_stmts (for_stmt (exprs_of head.entry.0.now) (maybe_of head.entry.1.now)
        (exprs_of head.entry.2.now) (stmts_of body.items)) no_stmts)) }
{
    let begin = copy_exprs(alloc, head.0)?;
    let test = copy_maybe(alloc, head.1)?;
    let next = copy_exprs(alloc, head.2)?;
    put(out, Stmt::For(begin, test, next, body))
}

/// `foreach`
#[inline(never)]
#[tactic(auto, using(php_syntax::proofs::Views::views))]
pub(crate) fn put_each(
    alloc: Global,
    head: (&Expr, &Option<Bytes>, &Bytes),
    body: Vec<Stmt>,
    out: &mut Vec<Stmt>,
) -> Result<(), NoMemory>
    ensures { OnOk result (stmts_of out.new.items ≡ followed_by (stmts_of out.old.items)
        (more_stmts (each_stmt (plain_expr head.entry.0.now) head.entry.1.now head.entry.2.now
        (stmts_of body.items)) no_stmts)) }
{
    let array = copy_expr(alloc, head.0)?;
    let key = copy_variable(alloc, head.1)?;
    let value = head.2.copy(alloc)?;
    put(out, Stmt::Each(array, key, value, body))
}
