//! The variables that a call begins with.

ghost use Rattle.std.specs.Prelude.{◌≡◌, ◌++◌, ◌∷◌, [], List, neg_ℤ, IfOk, OnOk};
ghost use Rattle.php_syntax.specs.Trees.{plain_expr, maybe_of, params_of_list};
ghost use Rattle.plain_values.specs.Plain.{Plain};
ghost use Rattle.php_values.specs.View.{plain_of, plain_list};
ghost use Rattle.script_meaning.specs.Programs.{literal_value, default_value, arguments_of};
ghost use Rattle.script_meaning.specs.Literals.{IsNoNegative};
ghost use Rattle.expr_evaluator.specs.VariablesView.{plain_variables};

use expr_evaluator::Variables;
use php_syntax::tree::{Expr, Param};
use php_values::{Text, Value};
use script_meaning::{Literal, literal_negative, unsigned_literal};
use std::alloc::Global;
use text_base::{Bytes, NoMemory};

// A text literal as a value. One that is longer than a text may be, which no file holds, wants
// memory.
fn literal_text(alloc: Global, bytes: &Bytes) -> Result<Value, NoMemory>
    ensures { IfOk result (λ v. plain_of v ≡ Plain.text bytes.now) }
{
    match Text::new(alloc, bytes.as_slice()) {
        Ok(text) => Ok(Value::Text(text)),
        Err(_) => Err(NoMemory),
    }
}

// An integer with its sign turned. The smallest one, which no literal says, wants memory.
fn negative(number: i64) -> Result<Value, NoMemory>
    ensures { IfOk result (λ v. plain_of v ≡ Plain.int (neg_ℤ number)) }
{
    match number.checked_neg() {
        Some(negative) => Ok(Value::Int(negative)),
        None => Err(NoMemory),
    }
}

// The value of a literal that has no sign before it.
#[tactic(auto, unfolding(script_meaning::specs::Literals::plain_literal))]
fn value_of(alloc: Global, expr: &Expr) -> Result<Value, NoMemory>
    requires { IsNoNegative (plain_expr expr.now) }
    ensures { IfOk result (λ v. plain_of v ≡ literal_value (plain_expr expr.now)) }
{
    match unsigned_literal(expr) {
        Literal::Null => Ok(Value::Null),
        Literal::Flag(truth) => Ok(Value::Flag(truth)),
        Literal::Int(number) => Ok(Value::Int(number)),
        Literal::Text(text) => literal_text(alloc, text),
    }
}

// The value of a literal.
#[tactic(auto, unfolding(script_meaning::specs::Programs::literal_value))]
fn literal_of(alloc: Global, expr: &Expr) -> Result<Value, NoMemory>
    ensures { IfOk result (λ v. plain_of v ≡ literal_value (plain_expr expr.now)) }
{
    match literal_negative(expr) {
        Some(number) => negative(number),
        None => value_of(alloc, expr),
    }
}

// The value of a parameter for which no argument was handed in.
#[tactic(auto, unfolding(script_meaning::specs::Programs::default_value))]
fn default_of(alloc: Global, default: &Option<Expr>) -> Result<Value, NoMemory>
    ensures { IfOk result (λ v. plain_of v ≡ default_value (maybe_of default.now)) }
{
    match default {
        None => Ok(Value::Null),
        Some(expr) => literal_of(alloc, expr),
    }
}

// Puts parameters with their defaults behind others.
fn put_defaults<'a>(
    alloc: Global,
    made: &mut Vec<(&'a [u8], Value)>,
    params: &'a [Param],
) -> Result<(), NoMemory>
    ensures { OnOk result (plain_variables made.new.items
        ≡ plain_variables made.old.items ++ arguments_of (params_of_list params.now) []) }
{
    let mut rest = params;
    while let Some((param, others)) = rest.split_first() {
        let value = default_of(alloc, &param.default)?;
        made.push((param.name.as_slice(), value))?;
        rest = others;
    }
    Ok(())
}

// Binds the first of these parameters to an argument, and gives the others. An argument for which
// there is none is let go.
fn put_argument<'a>(
    made: &mut Vec<(&'a [u8], Value)>,
    params: &'a [Param],
    arg: Value,
) -> Result<&'a [Param], NoMemory>
    ensures { IfOk result (λ others. (args : List Value)
        → plain_variables made.new.items
        ++ arguments_of (params_of_list others.now) (plain_list args)
        ≡ plain_variables made.old.items
        ++ arguments_of (params_of_list params.now) (plain_list (arg ∷ args))) }
{
    match params.split_first() {
        None => Ok(params),
        Some((param, others)) => {
            made.push((param.name.as_slice(), arg))?;
            Ok(others)
        }
    }
}

/// The variables of a call with these arguments.
pub(crate) fn variables_of<'a>(
    alloc: Global,
    params: &'a [Param],
    args: Vec<Value>,
) -> Result<Variables<'a>, NoMemory>
    ensures { IfOk result
        (λ vs. vs ≡ arguments_of (params_of_list params.now) (plain_list args.items)) }
{
    let mut made = Vec::new(alloc);
    let mut rest = params;
    for arg in args {
        rest = put_argument(&mut made, rest, arg)?;
    }
    put_defaults(alloc, &mut made, rest)?;
    Ok(Variables::of(alloc, made))
}
