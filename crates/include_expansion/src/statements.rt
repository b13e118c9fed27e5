//! Statements.

ghost use Rattle.std.specs.Prelude.{◌≡◌, IfOk, OnOk};
ghost use Rattle.php_syntax.specs.Trees.{plain_stmt, stmts_of, arms_of};
ghost use Rattle.program_rules.specs.Bodies.{followed_by, with_bodies, with_bodies_in, with_bodies_in_arms};
ghost use Rattle.program_files.specs.View.{files_of};
ghost use Rattle.include_expansion.specs.Within.{bodies_within};

use crate::parts::{
    put_arm, put_break, put_continue, put_do_while, put_each, put_echo, put_for, put_if,
    put_inline, put_quit, put_return, put_run, put_while,
};
use php_syntax::tree::{Expr, Stmt};
use program_files::ScriptFiles;
use std::alloc::Global;
use text_base::{Bytes, NoMemory};

/// Statements with each include replaced by the statements of its file, so many times over.
pub fn expand_statements(
    alloc: Global,
    files: &ScriptFiles,
    nesting: usize,
    stmts: &[Stmt],
) -> Result<Vec<Stmt>, NoMemory>
    ensures { IfOk result (λ copy. stmts_of copy.items
        ≡ with_bodies (bodies_within (files_of files.now) nesting) (stmts_of stmts.now)) }
{
    expand_body(alloc, files, nesting, stmts)
}

// A body of statements.
#[cycle(expansion)]
#[tactic(auto, using(crate::proofs::Followed::ends))]
fn expand_body(
    alloc: Global,
    files: &ScriptFiles,
    nesting: usize,
    stmts: &[Stmt],
) -> Result<Vec<Stmt>, NoMemory>
    ensures { IfOk result (λ copy. stmts_of copy.items
        ≡ with_bodies (bodies_within (files_of files.now) nesting) (stmts_of stmts.now)) }
{
    let mut out = Vec::new(alloc);
    expand_stmts(alloc, files, nesting, stmts, &mut out)?;
    Ok(out)
}

// Statements, behind others.
#[cycle(expansion)]
#[tactic(auto, using(crate::proofs::Followed::ends), unfolding(program_rules::specs::Bodies::with_bodies))]
fn expand_stmts(
    alloc: Global,
    files: &ScriptFiles,
    nesting: usize,
    stmts: &[Stmt],
    out: &mut Vec<Stmt>,
) -> Result<(), NoMemory>
    ensures { OnOk result (stmts_of out.new.items ≡ followed_by (stmts_of out.old.items)
        (with_bodies (bodies_within (files_of files.now) nesting) (stmts_of stmts.now))) }
{
    for stmt in stmts {
        expand_stmt(alloc, files, nesting, stmt, out)?;
    }
    Ok(())
}

// The statements of the file of a path.
#[cycle(expansion)]
#[tactic(auto, using(crate::proofs::Followed::ends))]
fn expand_file(
    alloc: Global,
    files: &ScriptFiles,
    nesting: usize,
    path: &Bytes,
    out: &mut Vec<Stmt>,
) -> Result<(), NoMemory>
    ensures { OnOk result (stmts_of out.new.items ≡ followed_by (stmts_of out.old.items)
        (bodies_within (files_of files.now) nesting path.now)) }
{
    if nesting == 0 {
        return Ok(());
    }
    match files.place_of(path) {
        Some(place) => match files.tree(place) {
            Some(tree) => expand_stmts(alloc, files, nesting - 1, tree.body.as_slice(), out),
            None => unreachable!(),
        },
        None => Ok(()),
    }
}

// The arms of an `if`.
#[cycle(expansion)]
fn expand_arms(
    alloc: Global,
    files: &ScriptFiles,
    nesting: usize,
    arms: &[(Expr, Vec<Stmt>)],
) -> Result<Vec<(Expr, Vec<Stmt>)>, NoMemory>
    ensures { IfOk result (λ copy. arms_of copy.items
        ≡ with_bodies_in_arms (bodies_within (files_of files.now) nesting) (arms_of arms.now)) }
{
    let mut copies = Vec::new(alloc);
    for arm in arms {
        let body = expand_body(alloc, files, nesting, arm.1.as_slice())?;
        put_arm(alloc, &arm.0, body, &mut copies)?;
    }
    Ok(copies)
}

// A statement: of one in which others stand with theirs replaced; another copied. The heads are
// copied behind the bodies, by calls that are not inlined, so that a statement within others takes
// little of the stack.
#[cycle(expansion)]
#[tactic(auto, using(php_syntax::proofs::Views::views, crate::proofs::Followed::ends), unfolding(program_rules::specs::Bodies::with_bodies))]
fn expand_stmt(
    alloc: Global,
    files: &ScriptFiles,
    nesting: usize,
    stmt: &Stmt,
    out: &mut Vec<Stmt>,
) -> Result<(), NoMemory>
    ensures { OnOk result (stmts_of out.new.items ≡ followed_by (stmts_of out.old.items)
        (with_bodies_in (bodies_within (files_of files.now) nesting) (plain_stmt stmt.now))) }
{
    match stmt {
        Stmt::Include(path) => expand_file(alloc, files, nesting, path, out),
        Stmt::Inline(bytes) => put_inline(alloc, bytes, out),
        Stmt::Echo(exprs) => put_echo(alloc, exprs.as_slice(), out),
        Stmt::Run(expr) => put_run(alloc, expr, out),
        Stmt::If(arms, last) => {
            let arms = expand_arms(alloc, files, nesting, arms.as_slice())?;
            let last = expand_body(alloc, files, nesting, last.as_slice())?;
            put_if(arms, last, out)
        }
        Stmt::While(test, body) => {
            let body = expand_body(alloc, files, nesting, body.as_slice())?;
            put_while(alloc, test, body, out)
        }
        Stmt::DoWhile(body, test) => {
            let body = expand_body(alloc, files, nesting, body.as_slice())?;
            put_do_while(alloc, body, test, out)
        }
        Stmt::For(begin, test, next, body) => {
            let head = (begin.as_slice(), test, next.as_slice());
            let body = expand_body(alloc, files, nesting, body.as_slice())?;
            put_for(alloc, head, body, out)
        }
        Stmt::Each(array, key, value, body) => {
            let body = expand_body(alloc, files, nesting, body.as_slice())?;
            put_each(alloc, (array, key, value), body, out)
        }
        Stmt::Break => put_break(out),
        Stmt::Continue => put_continue(out),
        Stmt::Return(value) => put_return(alloc, value, out),
        Stmt::Quit(value) => put_quit(alloc, value, out),
    }
}
