//! Expressions.

ghost use Rattle.std.specs.Prelude.{◌≡◌, ◌++◌, ◌∷◌, [], OnOk, ℕ, List};
ghost use Rattle.php_syntax.specs.declared.token.Sign.TheVariants as signs;
ghost use Rattle.script_grammar.specs.declared.keyword.Keyword.TheVariants as words;
ghost use Rattle.php_syntax.specs.Trees.{plain_expr, step_expr, exprs_of, items_of, path_of, boxed_of, maybe_of, target_name, target_path};
ghost use Rattle.spellable.specs.Marks.{Mark, Adds};
ghost use Rattle.spellable.specs.Marks as mark;
ghost use Rattle.php_writer.specs.Written.{int_mark, sign_of_update, placed_marks, chain_marks, expr_marks, condition_marks, maybe_marks, join_marks, list_marks, key_marks, items_marks, path_marks};

use crate::marks::Writer;
use crate::places::{
    AND, COALESCE, Infix, OR, arithmetic, comparison, flag_word, looseness, step_sign, update_sign,
};
use crate::reads::put_read;
use php_syntax::token::Sign;
use php_syntax::tree::{Expr, Target, UpdateSign};
use script_grammar::keyword::Keyword;
use script_grammar::reserved::request_name;
use text_base::{Bytes, NoMemory};

// An operand in a place that allows so much, in round brackets where it is looser.
#[cycle(expressions)]
#[tactic(auto, unfolding(crate::specs::Written::placed_marks))]
fn within(out: &mut Writer, place: u8, expr: &Expr) -> Result<(), NoMemory>
    ensures { OnOk result (Adds out.old.bytes out.new.bytes (placed_marks place (plain_expr
        expr.now))) }
{
    if place < looseness(expr) {
        out.sign(Sign::OpenParen)?;
        expression(out, expr)?;
        out.sign(Sign::CloseParen)?;
    } else {
        expression(out, expr)?;
    }
    Ok(())
}

// An operand behind a sign.
#[cycle(expressions)]
fn signed(out: &mut Writer, sign: Sign, place: u8, expr: &Expr) -> Result<(), NoMemory>
    ensures { OnOk result (Adds out.old.bytes out.new.bytes (λ behind.
        mark.sign sign ∷ placed_marks place (plain_expr expr.now) behind)) }
{
    out.sign(sign)?;
    within(out, place, expr)?;
    Ok(())
}

// Two operands and the sign between them.
#[cycle(expressions)]
fn infix(out: &mut Writer, left: &Expr, between: Infix, right: &Expr) -> Result<(), NoMemory>
    ensures { OnOk result (Adds out.old.bytes out.new.bytes (λ behind.
        placed_marks between.left (plain_expr left.now) (mark.sign between.sign ∷
        placed_marks between.right (plain_expr right.now) behind))) }
{
    within(out, between.left, left)?;
    signed(out, between.sign, between.right, right)?;
    Ok(())
}

// The question mark of a choice, and its middle operand if there is one.
#[cycle(expressions)]
#[tactic(auto, unfolding(crate::specs::Written::expr_marks))]
fn between(out: &mut Writer, middle: &Option<Box<Expr>>) -> Result<(), NoMemory>
    ensures { OnOk result (Adds out.old.bytes out.new.bytes (λ behind.
        mark.sign signs.Question ∷ maybe_marks (boxed_of middle.now) behind)) }
{
    out.sign(Sign::Question)?;
    if let Some(expr) = middle {
        expression(out, expr)?;
    }
    Ok(())
}

/// An expression that may be left out.
#[cycle(expressions)]
#[tactic(auto, unfolding(crate::specs::Written::expr_marks))]
pub fn maybe(out: &mut Writer, expr: &Option<Expr>) -> Result<(), NoMemory>
    ensures { OnOk result (Adds out.old.bytes out.new.bytes (maybe_marks (maybe_of expr.now))) }
{
    match expr {
        Some(expr) => expression(out, expr),
        None => Ok(()),
    }
}

// A member.
#[cycle(expressions)]
fn member(out: &mut Writer, base: &Expr, key: &Expr) -> Result<(), NoMemory>
    ensures { OnOk result (Adds out.old.bytes out.new.bytes (λ behind.
        placed_marks 0 (plain_expr base.now) (mark.sign signs.OpenBracket ∷
        expr_marks (plain_expr key.now) (mark.sign signs.CloseBracket ∷ behind)))) }
{
    within(out, 0, base)?;
    out.sign(Sign::OpenBracket)?;
    expression(out, key)?;
    out.sign(Sign::CloseBracket)?;
    Ok(())
}

// Operands in such places, with a sign between.
#[cycle(expressions)]
#[tactic(auto, unfolding(crate::specs::Written::behind_marks, crate::specs::Written::chain_marks))]
fn chain(out: &mut Writer, exprs: &[Expr], separator: Sign, place: u8) -> Result<(), NoMemory>
    ensures { OnOk result (Adds out.old.bytes out.new.bytes (chain_marks (exprs_of exprs.now)
        separator place)) }
{
    if let Some((first, rest)) = exprs.split_first() {
        within(out, place, first)?;
        for expr in rest {
            signed(out, separator, place, expr)?;
        }
    }
    Ok(())
}

// Expressions in round brackets.
#[cycle(expressions)]
#[tactic(auto, using(crate::proofs::RustLemmas::list_is_chain))]
fn arguments(out: &mut Writer, exprs: &[Expr]) -> Result<(), NoMemory>
    ensures { OnOk result (Adds out.old.bytes out.new.bytes (λ behind.
        mark.sign signs.OpenParen ∷ list_marks (exprs_of exprs.now) (mark.sign signs.CloseParen ∷
        behind))) }
{
    out.sign(Sign::OpenParen)?;
    chain(out, exprs, Sign::Comma, 12)?;
    out.sign(Sign::CloseParen)?;
    Ok(())
}

// A call.
#[cycle(expressions)]
fn call(out: &mut Writer, name: &Bytes, values: &[Expr]) -> Result<(), NoMemory>
    ensures { OnOk result (Adds out.old.bytes out.new.bytes (λ behind.
        mark.name name.now ∷ mark.sign signs.OpenParen ∷ list_marks (exprs_of values.now)
        (mark.sign signs.CloseParen ∷ behind))) }
{
    out.name(name.as_slice())?;
    arguments(out, values)?;
    Ok(())
}

// `empty` of an operand.
#[cycle(expressions)]
fn empty(out: &mut Writer, place: &Expr) -> Result<(), NoMemory>
    ensures { OnOk result (Adds out.old.bytes out.new.bytes (λ behind.
        mark.keyword words.Empty ∷ condition_marks (plain_expr place.now) behind)) }
{
    out.keyword(Keyword::Empty)?;
    condition(out, place)?;
    Ok(())
}

// A chain of `.`, or a template.
#[cycle(expressions)]
#[tactic(auto, using(crate::proofs::RustLemmas::join_is_chain, crate::proofs::RustLemmas::join_is_read))]
fn join(out: &mut Writer, parts: &[Expr]) -> Result<(), NoMemory>
    ensures { OnOk result (Adds out.old.bytes out.new.bytes (join_marks (exprs_of parts.now))) }
{
    if let [part] = parts {
        put_read(out, part)
    } else {
        chain(out, parts, Sign::Dot, 4)
    }
}

// An item of an array.
#[cycle(expressions)]
#[tactic(auto, unfolding(crate::specs::Written::expr_marks))]
fn item(out: &mut Writer, item: &(Option<Expr>, Expr)) -> Result<(), NoMemory>
    ensures { OnOk result (Adds out.old.bytes out.new.bytes (λ behind.
        key_marks (maybe_of item.now.0) (expr_marks (plain_expr item.now.1) behind))) }
{
    if let Some(key) = &item.0 {
        expression(out, key)?;
        out.sign(Sign::DoubleArrow)?;
    }
    expression(out, &item.1)?;
    Ok(())
}

// Items with commas between.
#[cycle(expressions)]
#[tactic(auto, unfolding(crate::specs::Written::expr_marks))]
fn several(out: &mut Writer, items: &[(Option<Expr>, Expr)]) -> Result<(), NoMemory>
    ensures { OnOk result (Adds out.old.bytes out.new.bytes (items_marks (items_of items.now))) }
{
    if let Some((first, rest)) = items.split_first() {
        item(out, first)?;
        for another in rest {
            out.sign(Sign::Comma)?;
            item(out, another)?;
        }
    }
    Ok(())
}

// An array.
#[cycle(expressions)]
fn array(out: &mut Writer, items: &[(Option<Expr>, Expr)]) -> Result<(), NoMemory>
    ensures { OnOk result (Adds out.old.bytes out.new.bytes (λ behind.
        mark.sign signs.OpenBracket ∷ items_marks (items_of items.now)
        (mark.sign signs.CloseBracket ∷ behind))) }
{
    out.sign(Sign::OpenBracket)?;
    several(out, items)?;
    out.sign(Sign::CloseBracket)?;
    Ok(())
}

// The keys of a target.
#[cycle(expressions)]
#[tactic(auto, unfolding(crate::specs::Written::expr_marks))]
fn path(out: &mut Writer, keys: &[Option<Expr>]) -> Result<(), NoMemory>
    ensures { OnOk result (Adds out.old.bytes out.new.bytes (path_marks (path_of keys.now))) }
{
    for key in keys {
        out.sign(Sign::OpenBracket)?;
        maybe(out, key)?;
        out.sign(Sign::CloseBracket)?;
    }
    Ok(())
}

// An assignment.
#[cycle(expressions)]
fn assignment(out: &mut Writer, target: &Target, sign: Sign, value: &Expr) -> Result<(), NoMemory>
    ensures { OnOk result (Adds out.old.bytes out.new.bytes (λ behind.
        mark.variable (target_name target.now) ∷ path_marks (target_path target.now)
        (mark.sign sign ∷ expr_marks (plain_expr value.now) behind))) }
{
    out.variable(target.name.as_slice())?;
    path(out, target.path.as_slice())?;
    out.sign(sign)?;
    expression(out, value)?;
    Ok(())
}

// An assignment that reads its target first.
#[cycle(expressions)]
fn update(out: &mut Writer, sign: UpdateSign, target: &Target, value: &Expr) -> Result<(), NoMemory>
    ensures { OnOk result (Adds out.old.bytes out.new.bytes (λ behind.
        mark.variable (target_name target.now) ∷ path_marks (target_path target.now)
        (mark.sign (sign_of_update sign) ∷ expr_marks (plain_expr value.now) behind))) }
{
    assignment(out, target, update_sign(sign), value)?;
    Ok(())
}

// An integer.
fn integer(out: &mut Writer, number: &i64) -> Result<(), NoMemory>
    ensures { OnOk result (Adds out.old.bytes out.new.bytes (λ behind.
        int_mark number.now ∷ behind)) }
{
    out.integer(*number)?;
    Ok(())
}

// A step of a variable.
#[tactic(auto, unfolding(crate::specs::Written::expr_marks))]
fn step(out: &mut Writer, name: &Bytes, up: bool, before: bool) -> Result<(), NoMemory>
    ensures { OnOk result (Adds out.old.bytes out.new.bytes (expr_marks (step_expr name.now up
        before))) }
{
    if before {
        out.sign(step_sign(up))?;
        out.variable(name.as_slice())
    } else {
        out.variable(name.as_slice())?;
        out.sign(step_sign(up))
    }
}

/// An expression.
#[cycle(expressions)]
#[tactic(auto, using(php_syntax::proofs::Views::views), unfolding(crate::specs::Written::expr_marks, crate::specs::Written::placed_marks))]
pub fn expression(out: &mut Writer, expr: &Expr) -> Result<(), NoMemory>
    ensures { OnOk result (Adds out.old.bytes out.new.bytes (expr_marks (plain_expr expr.now))) }
{
    match expr {
        Expr::Null => out.keyword(Keyword::Null),
        Expr::Flag(flag) => out.keyword(flag_word(*flag)),
        Expr::Int(number) => integer(out, number),
        Expr::Text(text) => out.text(text.as_slice()),
        Expr::Var(name) => out.variable(name.as_slice()),
        Expr::Super(name) => out.variable(request_name(*name)),
        Expr::Member(base, key) => member(out, base, key),
        Expr::ArrayOf(items) => array(out, items.as_slice()),
        Expr::Join(parts) => join(out, parts.as_slice()),
        Expr::Neg(a) => signed(out, Sign::Minus, 2, a),
        Expr::Not(a) => signed(out, Sign::Not, 2, a),
        Expr::Arith(sign, a, b) => infix(out, a, arithmetic(*sign), b),
        Expr::Compare(sign, a, b) => infix(out, a, comparison(*sign), b),
        Expr::And(a, b) => infix(out, a, AND, b),
        Expr::Or(a, b) => infix(out, a, OR, b),
        Expr::Coalesce(a, b) => infix(out, a, COALESCE, b),
        Expr::Choice(test, middle, other) => {
            within(out, 10, test)?;
            between(out, middle)?;
            signed(out, Sign::Colon, 10, other)
        }
        Expr::Isset(places) => {
            out.keyword(Keyword::Isset)?;
            arguments(out, places.as_slice())
        }
        Expr::Empty(place) => empty(out, place),
        Expr::Assign(target, value) => assignment(out, target, Sign::Assign, value),
        Expr::Update(sign, target, value) => update(out, *sign, target, value),
        Expr::Step { name, up, before } => step(out, name, *up, *before),
        Expr::Call(name, values) => call(out, name, values.as_slice()),
    }
}

/// An expression in round brackets.
#[cycle(expressions)]
pub fn condition(out: &mut Writer, expr: &Expr) -> Result<(), NoMemory>
    ensures { OnOk result (Adds out.old.bytes out.new.bytes (condition_marks (plain_expr
        expr.now))) }
{
    out.sign(Sign::OpenParen)?;
    expression(out, expr)?;
    out.sign(Sign::CloseParen)?;
    Ok(())
}

/// Expressions with commas between.
#[tactic(auto, using(crate::proofs::RustLemmas::list_is_chain))]
pub fn list(out: &mut Writer, exprs: &[Expr]) -> Result<(), NoMemory>
    ensures { OnOk result (Adds out.old.bytes out.new.bytes (list_marks (exprs_of exprs.now))) }
{
    chain(out, exprs, Sign::Comma, 12)
}
