//! Statements without a body, and what stands before a body.

ghost use Rattle.std.specs.Prelude.{◌≡◌, ◌++◌, ◌∷◌, OnOk, ℕ, List, Option};
ghost use Rattle.php_syntax.specs.declared.token.Sign.TheVariants as signs;
ghost use Rattle.script_grammar.specs.declared.keyword.Keyword.{Keyword as Word};
ghost use Rattle.script_grammar.specs.declared.keyword.Keyword.TheVariants as words;
ghost use Rattle.php_syntax.specs.Trees.{plain_expr, exprs_of, maybe_of};
ghost use Rattle.spellable.specs.Marks.{Mark, Adds};
ghost use Rattle.spellable.specs.Marks as mark;
ghost use Rattle.php_writer.specs.Written.{expr_marks, maybe_marks, list_marks, condition_marks, argument_marks, variables_marks};

use crate::expressions::{condition, expression, list, maybe};
use crate::marks::Writer;
use php_syntax::token::Sign;
use php_syntax::tree::Expr;
use script_grammar::keyword::Keyword;
use text_base::{Bytes, NoMemory};

/// `echo`
pub fn echo(out: &mut Writer, exprs: &[Expr]) -> Result<(), NoMemory>
    ensures { OnOk result (Adds out.old.bytes out.new.bytes (λ behind.
        mark.keyword words.Echo ∷ list_marks (exprs_of exprs.now) (mark.sign signs.Semicolon ∷
        behind))) }
{
    out.keyword(Keyword::Echo)?;
    list(out, exprs)?;
    out.sign(Sign::Semicolon)?;
    Ok(())
}

/// An expression as a statement.
pub fn run(out: &mut Writer, expr: &Expr) -> Result<(), NoMemory>
    ensures { OnOk result (Adds out.old.bytes out.new.bytes (λ behind.
        expr_marks (plain_expr expr.now) (mark.sign signs.Semicolon ∷ behind))) }
{
    expression(out, expr)?;
    out.sign(Sign::Semicolon)?;
    Ok(())
}

/// A word as a statement.
pub fn jump(out: &mut Writer, word: Keyword) -> Result<(), NoMemory>
    ensures { OnOk result (Adds out.old.bytes out.new.bytes (λ behind.
        mark.keyword word ∷ mark.sign signs.Semicolon ∷ behind)) }
{
    out.keyword(word)?;
    out.sign(Sign::Semicolon)?;
    Ok(())
}

/// `return`
pub fn returned(out: &mut Writer, value: &Option<Expr>) -> Result<(), NoMemory>
    ensures { OnOk result (Adds out.old.bytes out.new.bytes (λ behind.
        mark.keyword words.Return ∷ maybe_marks (maybe_of value.now) (mark.sign signs.Semicolon ∷
        behind))) }
{
    out.keyword(Keyword::Return)?;
    maybe(out, value)?;
    out.sign(Sign::Semicolon)?;
    Ok(())
}

// An argument in round brackets, if there is one.
fn argument(out: &mut Writer, value: &Option<Expr>) -> Result<(), NoMemory>
    ensures { OnOk result (Adds out.old.bytes out.new.bytes (argument_marks (maybe_of value.now))) }
{
    match value {
        None => Ok(()),
        Some(value) => condition(out, value),
    }
}

/// `exit`
pub fn quit(out: &mut Writer, value: &Option<Expr>) -> Result<(), NoMemory>
    ensures { OnOk result (Adds out.old.bytes out.new.bytes (λ behind.
        mark.keyword words.Exit ∷ argument_marks (maybe_of value.now) (mark.sign signs.Semicolon ∷
        behind))) }
{
    out.keyword(Keyword::Exit)?;
    argument(out, value)?;
    out.sign(Sign::Semicolon)?;
    Ok(())
}

/// `include`
pub fn include(out: &mut Writer, file: &Bytes) -> Result<(), NoMemory>
    ensures { OnOk result (Adds out.old.bytes out.new.bytes (λ behind.
        mark.keyword words.Include ∷ mark.text file.now ∷ mark.sign signs.Semicolon ∷ behind)) }
{
    out.keyword(Keyword::Include)?;
    out.text(file.as_slice())?;
    out.sign(Sign::Semicolon)?;
    Ok(())
}

/// A word and a condition.
pub fn head(out: &mut Writer, word: Keyword, expr: &Expr) -> Result<(), NoMemory>
    ensures { OnOk result (Adds out.old.bytes out.new.bytes (λ behind.
        mark.keyword word ∷ condition_marks (plain_expr expr.now) behind)) }
{
    out.keyword(word)?;
    condition(out, expr)?;
    Ok(())
}

/// What stands behind the body of a `do`.
pub fn do_end(out: &mut Writer, expr: &Expr) -> Result<(), NoMemory>
    ensures { OnOk result (Adds out.old.bytes out.new.bytes (λ behind.
        mark.keyword words.While ∷ condition_marks (plain_expr expr.now)
        (mark.sign signs.Semicolon ∷ behind))) }
{
    head(out, Keyword::While, expr)?;
    out.sign(Sign::Semicolon)?;
    Ok(())
}

// What stands in a `for` up to its first semicolon.
fn for_begin(out: &mut Writer, begin: &[Expr]) -> Result<(), NoMemory>
    ensures { OnOk result (Adds out.old.bytes out.new.bytes (λ behind.
        mark.keyword words.For ∷ mark.sign signs.OpenParen ∷ list_marks (exprs_of begin.now)
        (mark.sign signs.Semicolon ∷ behind))) }
{
    out.keyword(Keyword::For)?;
    out.sign(Sign::OpenParen)?;
    list(out, begin)?;
    out.sign(Sign::Semicolon)?;
    Ok(())
}

// What stands in a `for` behind its first semicolon.
fn for_end(out: &mut Writer, test: &Option<Expr>, next: &[Expr]) -> Result<(), NoMemory>
    ensures { OnOk result (Adds out.old.bytes out.new.bytes (λ behind.
        maybe_marks (maybe_of test.now) (mark.sign signs.Semicolon ∷ list_marks (exprs_of next.now)
        (mark.sign signs.CloseParen ∷ behind)))) }
{
    maybe(out, test)?;
    out.sign(Sign::Semicolon)?;
    list(out, next)?;
    out.sign(Sign::CloseParen)?;
    Ok(())
}

/// What stands before the body of a `for`.
pub fn for_head(
    out: &mut Writer,
    begin: &[Expr],
    test: &Option<Expr>,
    next: &[Expr],
) -> Result<(), NoMemory>
    ensures { OnOk result (Adds out.old.bytes out.new.bytes (λ behind.
        mark.keyword words.For ∷ mark.sign signs.OpenParen ∷ list_marks (exprs_of begin.now)
        (mark.sign signs.Semicolon ∷ maybe_marks (maybe_of test.now) (mark.sign signs.Semicolon ∷
        list_marks (exprs_of next.now) (mark.sign signs.CloseParen ∷ behind))))) }
{
    for_begin(out, begin)?;
    for_end(out, test, next)?;
    Ok(())
}

// The variables of a `foreach`.
fn variables(out: &mut Writer, key: &Option<Bytes>, value: &Bytes) -> Result<(), NoMemory>
    ensures { OnOk result (Adds out.old.bytes out.new.bytes (variables_marks key.now value.now)) }
{
    if let Some(key) = key {
        out.variable(key.as_slice())?;
        out.sign(Sign::DoubleArrow)?;
    }
    out.variable(value.as_slice())?;
    Ok(())
}

// What stands in a `foreach` up to `as`.
fn each_begin(out: &mut Writer, array: &Expr) -> Result<(), NoMemory>
    ensures { OnOk result (Adds out.old.bytes out.new.bytes (λ behind.
        mark.keyword words.Foreach ∷ mark.sign signs.OpenParen ∷ expr_marks (plain_expr array.now)
        (mark.keyword words.As ∷ behind))) }
{
    out.keyword(Keyword::Foreach)?;
    out.sign(Sign::OpenParen)?;
    expression(out, array)?;
    out.keyword(Keyword::As)?;
    Ok(())
}

/// What stands before the body of a `foreach`.
pub fn each_head(
    out: &mut Writer,
    array: &Expr,
    key: &Option<Bytes>,
    value: &Bytes,
) -> Result<(), NoMemory>
    ensures { OnOk result (Adds out.old.bytes out.new.bytes (λ behind.
        mark.keyword words.Foreach ∷ mark.sign signs.OpenParen ∷ expr_marks (plain_expr array.now)
        (mark.keyword words.As ∷ variables_marks key.now value.now (mark.sign signs.CloseParen ∷
        behind)))) }
{
    each_begin(out, array)?;
    variables(out, key, value)?;
    out.sign(Sign::CloseParen)?;
    Ok(())
}
