//! Files.

ghost use Rattle.std.specs.Prelude.{◌≡◌, ◌++◌, ◌∷◌, OnOk, IfOk, true, ℕ, List};
ghost use Rattle.php_syntax.specs.declared.token.Sign.TheVariants as signs;
ghost use Rattle.script_grammar.specs.declared.keyword.Keyword.TheVariants as words;
ghost use Rattle.php_syntax.specs.Trees.{maybe_of, plain_param, params_of_list, plain_function, functions_of_list, plain_file};
ghost use Rattle.spellable.specs.Marks.{Mark, Adds, all_written, file_written};
ghost use Rattle.spellable.specs.Marks as mark;
ghost use Rattle.php_writer.specs.Spelled.{Spells, IsSpelled};
ghost use Rattle.php_writer.specs.Written.{default_marks, param_marks, params_marks, function_marks, functions_marks, file_marks};

use crate::expressions::expression;
use crate::marks::Writer;
use crate::statements::{body, statements};
use php_syntax::token::Sign;
use php_syntax::tree::{Expr, FileTree, FunctionDef, Param};
use script_grammar::keyword::Keyword;
use std::alloc::Global;
use text_base::{Bytes, NoMemory};

// The default of a parameter, if there is one.
fn default(out: &mut Writer, value: &Option<Expr>) -> Result<(), NoMemory>
    ensures { OnOk result (Adds out.old.bytes out.new.bytes (default_marks (maybe_of value.now))) }
{
    if let Some(value) = value {
        out.sign(Sign::Assign)?;
        expression(out, value)?;
    }
    Ok(())
}

// A parameter.
fn parameter(out: &mut Writer, param: &Param) -> Result<(), NoMemory>
    ensures { OnOk result (Adds out.old.bytes out.new.bytes (param_marks (plain_param param.now))) }
{
    out.variable(param.name.as_slice())?;
    default(out, &param.default)?;
    Ok(())
}

// Parameters with commas between.
fn parameters(out: &mut Writer, params: &[Param]) -> Result<(), NoMemory>
    ensures { OnOk result (Adds out.old.bytes out.new.bytes (params_marks (params_of_list
        params.now))) }
{
    if let Some((first, rest)) = params.split_first() {
        parameter(out, first)?;
        for another in rest {
            out.sign(Sign::Comma)?;
            parameter(out, another)?;
        }
    }
    Ok(())
}

// Parameters in round brackets.
fn in_brackets(out: &mut Writer, params: &[Param]) -> Result<(), NoMemory>
    ensures { OnOk result (Adds out.old.bytes out.new.bytes (λ behind.
        mark.sign signs.OpenParen ∷ params_marks (params_of_list params.now)
        (mark.sign signs.CloseParen ∷ behind))) }
{
    out.sign(Sign::OpenParen)?;
    parameters(out, params)?;
    out.sign(Sign::CloseParen)?;
    Ok(())
}

// A function.
fn function(out: &mut Writer, function: &FunctionDef) -> Result<(), NoMemory>
    ensures { OnOk result (Adds out.old.bytes out.new.bytes (function_marks (plain_function
        function.now))) }
{
    out.keyword(Keyword::Function)?;
    out.name(function.name.as_slice())?;
    in_brackets(out, function.params.as_slice())?;
    body(out, function.body.as_slice())?;
    Ok(())
}

// Functions.
fn functions(out: &mut Writer, functions: &[FunctionDef]) -> Result<(), NoMemory>
    ensures { OnOk result (Adds out.old.bytes out.new.bytes (functions_marks (functions_of_list
        functions.now))) }
{
    for each in functions {
        function(out, each)?;
    }
    Ok(())
}

// The marks of a file, behind the tag that opens PHP.
fn file_bytes(alloc: Global, tree: &FileTree) -> Result<Bytes, NoMemory>
    ensures { IfOk result (λ bytes. bytes ≡ file_written (file_marks (plain_file tree.now))) }
{
    let mut out = Writer {
        alloc,
        bytes: Bytes::from_slice(alloc, b"<?php ")?,
    };
    functions(&mut out, tree.functions.as_slice())?;
    statements(&mut out, tree.body.as_slice())?;
    Ok(out.bytes)
}

/// A file that spells the tree, where some file does. It calls itself as deep as the tree is high:
/// ask `well_formed` first where that may be much.
pub fn write_tree(alloc: Global, tree: &FileTree) -> Result<Bytes, NoMemory>
    // These bytes and no others.
    ensures exact { IfOk result (λ bytes. bytes ≡ file_written (file_marks (plain_file tree.now))) }

    // They spell the tree, where some file does.
    ensures spells { IfOk result (λ bytes.
        IsSpelled (plain_file tree.now) → Spells bytes (plain_file tree.now)) }
{
    file_bytes(alloc, tree)
}
