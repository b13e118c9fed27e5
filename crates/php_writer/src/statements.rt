//! Statements.

ghost use Rattle.std.specs.Prelude.{◌≡◌, ◌++◌, ◌∷◌, OnOk, ℕ, List};
ghost use Rattle.php_syntax.specs.declared.token.Sign.TheVariants as signs;
ghost use Rattle.script_grammar.specs.declared.keyword.Keyword.TheVariants as words;
ghost use Rattle.php_syntax.specs.Trees.{plain_expr, plain_stmt, stmts_of, arms_of};
ghost use Rattle.spellable.specs.Marks.{Mark, Adds};
ghost use Rattle.spellable.specs.Marks as mark;
ghost use Rattle.php_writer.specs.Written.{condition_marks, stmt_marks, stmts_marks, arms_marks, else_marks};

use crate::heads::{do_end, each_head, echo, for_head, head, include, jump, quit, returned, run};
use crate::marks::Writer;
use php_syntax::token::Sign;
use php_syntax::tree::{Expr, Stmt};
use script_grammar::keyword::Keyword;
use text_base::NoMemory;

/// Statements.
#[cycle(statements)]
#[tactic(auto, unfolding(crate::specs::Written::stmt_marks))]
pub fn statements(out: &mut Writer, stmts: &[Stmt]) -> Result<(), NoMemory>
    ensures { OnOk result (Adds out.old.bytes out.new.bytes (stmts_marks (stmts_of stmts.now))) }
{
    for stmt in stmts {
        statement(out, stmt)?;
    }
    Ok(())
}

/// Statements in braces.
#[cycle(statements)]
pub fn body(out: &mut Writer, stmts: &[Stmt]) -> Result<(), NoMemory>
    ensures { OnOk result (Adds out.old.bytes out.new.bytes (λ behind.
        mark.sign signs.OpenBrace ∷ stmts_marks (stmts_of stmts.now) (mark.sign signs.CloseBrace ∷
        behind))) }
{
    out.sign(Sign::OpenBrace)?;
    statements(out, stmts)?;
    out.sign(Sign::CloseBrace)?;
    Ok(())
}

// An arm of an `if`.
#[cycle(statements)]
fn arm(out: &mut Writer, word: Keyword, arm: &(Expr, Vec<Stmt>)) -> Result<(), NoMemory>
    ensures { OnOk result (Adds out.old.bytes out.new.bytes (λ behind.
        mark.keyword word ∷ condition_marks (plain_expr arm.now.0) (mark.sign signs.OpenBrace ∷
        stmts_marks (stmts_of arm.now.1.items) (mark.sign signs.CloseBrace ∷ behind)))) }
{
    head(out, word, &arm.0)?;
    body(out, arm.1.as_slice())?;
    Ok(())
}

// The arms of an `if`.
#[cycle(statements)]
#[tactic(auto, unfolding(crate::specs::Written::stmt_marks))]
fn branches(out: &mut Writer, arms: &[(Expr, Vec<Stmt>)]) -> Result<(), NoMemory>
    ensures { OnOk result (Adds out.old.bytes out.new.bytes (arms_marks (arms_of arms.now)
        words.If)) }
{
    if let Some((first, rest)) = arms.split_first() {
        arm(out, Keyword::If, first)?;
        for another in rest {
            arm(out, Keyword::ElseIf, another)?;
        }
    }
    Ok(())
}

// What stands after the last `else`, if anything does.
#[cycle(statements)]
#[tactic(auto, using(crate::proofs::RustLemmas::else_is, crate::proofs::RustLemmas::else_none))]
fn otherwise(out: &mut Writer, stmts: &[Stmt]) -> Result<(), NoMemory>
    ensures { OnOk result (Adds out.old.bytes out.new.bytes (else_marks (stmts_of stmts.now))) }
{
    if !stmts.is_empty() {
        out.keyword(Keyword::Else)?;
        body(out, stmts)?;
    }
    Ok(())
}

/// A statement.
#[cycle(statements)]
#[tactic(auto, using(php_syntax::proofs::Views::views), unfolding(crate::specs::Written::stmt_marks))]
pub fn statement(out: &mut Writer, stmt: &Stmt) -> Result<(), NoMemory>
    ensures { OnOk result (Adds out.old.bytes out.new.bytes (stmt_marks (plain_stmt stmt.now))) }
{
    match stmt {
        Stmt::Inline(text) => out.outside(text.as_slice()),
        Stmt::Echo(exprs) => echo(out, exprs.as_slice()),
        Stmt::Run(expr) => run(out, expr),
        Stmt::If(arms, last) => {
            branches(out, arms.as_slice())?;
            otherwise(out, last.as_slice())
        }
        Stmt::While(test, stmts) => {
            head(out, Keyword::While, test)?;
            body(out, stmts.as_slice())
        }
        Stmt::DoWhile(stmts, test) => {
            out.keyword(Keyword::Do)?;
            body(out, stmts.as_slice())?;
            do_end(out, test)
        }
        Stmt::For(begin, test, next, stmts) => {
            for_head(out, begin.as_slice(), test, next.as_slice())?;
            body(out, stmts.as_slice())
        }
        Stmt::Each(array, key, value, stmts) => {
            each_head(out, array, key, value)?;
            body(out, stmts.as_slice())
        }
        Stmt::Break => jump(out, Keyword::Break),
        Stmt::Continue => jump(out, Keyword::Continue),
        Stmt::Return(value) => returned(out, value),
        Stmt::Include(file) => include(out, file),
        Stmt::Quit(value) => quit(out, value),
    }
}
