//! Copies of expressions.

ghost use Rattle.std.specs.Prelude.{◌≡◌, [], ◌∷◌, ◌++◌, IfOk, OnOk};
ghost use Rattle.php_syntax.specs.Trees.{plain_expr, exprs_of, items_of, path_of, boxed_of, maybe_of, target_name, target_path, member_expr, array_expr, join_expr, neg_expr, not_expr, arith_expr, compare_expr, and_expr, or_expr, coalesce_expr, choice_expr, isset_expr, empty_expr, assign_expr, update_expr, call_expr};

use php_syntax::tree::{ArithSign, CompareSign, Expr, Target, UpdateSign};
use std::alloc::Global;
use text_base::{Bytes, NoMemory};

// A copy in a box.
#[cycle(copies)]
fn copy_box(alloc: Global, expr: &Expr) -> Result<Box<Expr>, NoMemory>
    ensures { IfOk result (λ copy. plain_expr copy.value ≡ plain_expr expr.now) }
{
    let copy = copy_expr(alloc, expr)?;
    let boxed = Box::new(alloc, copy)?;
    Ok(boxed)
}

// A copy of an operand that may be left out.
#[cycle(copies)]
fn copy_boxed(alloc: Global, middle: &Option<Box<Expr>>) -> Result<Option<Box<Expr>>, NoMemory>
    ensures { IfOk result (λ copy. boxed_of copy ≡ boxed_of middle.now) }
{
    match middle {
        Some(expr) => {
            let copy = copy_box(alloc, expr)?;
            Ok(Some(copy))
        }
        None => Ok(None),
    }
}

/// A copy of an expression that may be left out.
#[cycle(copies)]
pub fn copy_maybe(alloc: Global, expr: &Option<Expr>) -> Result<Option<Expr>, NoMemory>
    ensures { IfOk result (λ copy. maybe_of copy ≡ maybe_of expr.now) }
{
    match expr {
        Some(expr) => {
            let copy = copy_expr(alloc, expr)?;
            Ok(Some(copy))
        }
        None => Ok(None),
    }
}

/// A copy of expressions.
#[cycle(copies)]
pub fn copy_exprs(alloc: Global, exprs: &[Expr]) -> Result<Vec<Expr>, NoMemory>
    ensures { IfOk result (λ copies. exprs_of copies.items ≡ exprs_of exprs.now) }
{
    let mut copies = Vec::new(alloc);
    for expr in exprs {
        let copy = copy_expr(alloc, expr)?;
        copies.push(copy)?;
    }
    Ok(copies)
}

// A copy of the items of an array.
#[cycle(copies)]
fn copy_items(
    alloc: Global,
    items: &[(Option<Expr>, Expr)],
) -> Result<Vec<(Option<Expr>, Expr)>, NoMemory>
    ensures { IfOk result (λ copies. items_of copies.items ≡ items_of items.now) }
{
    let mut copies = Vec::new(alloc);
    for item in items {
        let key = copy_maybe(alloc, &item.0)?;
        let value = copy_expr(alloc, &item.1)?;
        copies.push((key, value))?;
    }
    Ok(copies)
}

// A copy of the keys of a path.
#[cycle(copies)]
fn copy_path(alloc: Global, keys: &[Option<Expr>]) -> Result<Vec<Option<Expr>>, NoMemory>
    ensures { IfOk result (λ copies. path_of copies.items ≡ path_of keys.now) }
{
    let mut copies = Vec::new(alloc);
    for key in keys {
        let copy = copy_maybe(alloc, key)?;
        copies.push(copy)?;
    }
    Ok(copies)
}

// A copy of a target.
#[cycle(copies)]
fn copy_target(alloc: Global, target: &Target) -> Result<Target, NoMemory>
    ensures name { IfOk result (λ copy. target_name copy ≡ target_name target.now) }
    ensures path { IfOk result (λ copy. target_path copy ≡ target_path target.now) }
{
    let name = target.name.copy(alloc)?;
    let path = copy_path(alloc, target.path.as_slice())?;
    Ok(Target { name, path })
}

// `-` before an operand.
#[cycle(copies)]
#[tactic(auto, unfolding(php_syntax::specs::Trees::plain_expr))]
fn copy_neg(alloc: Global, operand: &Expr) -> Result<Expr, NoMemory>
    ensures { IfOk result (λ copy. plain_expr copy ≡ neg_expr (plain_expr operand.now)) }
{
    let operand = copy_box(alloc, operand)?;
    Ok(Expr::Neg(operand))
}

// `!` before an operand.
#[cycle(copies)]
#[tactic(auto, unfolding(php_syntax::specs::Trees::plain_expr))]
fn copy_not(alloc: Global, operand: &Expr) -> Result<Expr, NoMemory>
    ensures { IfOk result (λ copy. plain_expr copy ≡ not_expr (plain_expr operand.now)) }
{
    let operand = copy_box(alloc, operand)?;
    Ok(Expr::Not(operand))
}

// `empty` of an operand.
#[cycle(copies)]
#[tactic(auto, unfolding(php_syntax::specs::Trees::plain_expr))]
fn copy_empty(alloc: Global, operand: &Expr) -> Result<Expr, NoMemory>
    ensures { IfOk result (λ copy. plain_expr copy ≡ empty_expr (plain_expr operand.now)) }
{
    let operand = copy_box(alloc, operand)?;
    Ok(Expr::Empty(operand))
}

// A member.
#[cycle(copies)]
#[tactic(auto, unfolding(php_syntax::specs::Trees::plain_expr))]
fn copy_member(alloc: Global, left: &Expr, right: &Expr) -> Result<Expr, NoMemory>
    ensures { IfOk result
        (λ copy. plain_expr copy ≡ member_expr (plain_expr left.now) (plain_expr right.now)) }
{
    let left = copy_box(alloc, left)?;
    let right = copy_box(alloc, right)?;
    Ok(Expr::Member(left, right))
}

// `&&`
#[cycle(copies)]
#[tactic(auto, unfolding(php_syntax::specs::Trees::plain_expr))]
fn copy_and(alloc: Global, left: &Expr, right: &Expr) -> Result<Expr, NoMemory>
    ensures { IfOk result
        (λ copy. plain_expr copy ≡ and_expr (plain_expr left.now) (plain_expr right.now)) }
{
    let left = copy_box(alloc, left)?;
    let right = copy_box(alloc, right)?;
    Ok(Expr::And(left, right))
}

// `||`
#[cycle(copies)]
#[tactic(auto, unfolding(php_syntax::specs::Trees::plain_expr))]
fn copy_or(alloc: Global, left: &Expr, right: &Expr) -> Result<Expr, NoMemory>
    ensures { IfOk result
        (λ copy. plain_expr copy ≡ or_expr (plain_expr left.now) (plain_expr right.now)) }
{
    let left = copy_box(alloc, left)?;
    let right = copy_box(alloc, right)?;
    Ok(Expr::Or(left, right))
}

// `??`
#[cycle(copies)]
#[tactic(auto, unfolding(php_syntax::specs::Trees::plain_expr))]
fn copy_coalesce(alloc: Global, left: &Expr, right: &Expr) -> Result<Expr, NoMemory>
    ensures { IfOk result
        (λ copy. plain_expr copy ≡ coalesce_expr (plain_expr left.now) (plain_expr right.now)) }
{
    let left = copy_box(alloc, left)?;
    let right = copy_box(alloc, right)?;
    Ok(Expr::Coalesce(left, right))
}

// An arithmetic operation.
#[cycle(copies)]
#[tactic(auto, unfolding(php_syntax::specs::Trees::plain_expr))]
fn copy_arith(alloc: Global, sign: ArithSign, left: &Expr, right: &Expr) -> Result<Expr, NoMemory>
    ensures { IfOk result
        (λ copy. plain_expr copy ≡ arith_expr sign (plain_expr left.now) (plain_expr right.now)) }
{
    let left = copy_box(alloc, left)?;
    let right = copy_box(alloc, right)?;
    Ok(Expr::Arith(sign, left, right))
}

// A comparison.
#[cycle(copies)]
#[tactic(auto, unfolding(php_syntax::specs::Trees::plain_expr))]
fn copy_compare(
    alloc: Global,
    sign: CompareSign,
    left: &Expr,
    right: &Expr,
) -> Result<Expr, NoMemory>
    ensures { IfOk result
        (λ copy. plain_expr copy ≡ compare_expr sign (plain_expr left.now) (plain_expr right.now)) }
{
    let left = copy_box(alloc, left)?;
    let right = copy_box(alloc, right)?;
    Ok(Expr::Compare(sign, left, right))
}

// A chain of `.`, or a text with interpolation.
#[cycle(copies)]
#[tactic(auto, using(php_syntax::proofs::Views::views))]
fn copy_join(alloc: Global, parts: &[Expr]) -> Result<Expr, NoMemory>
    ensures { IfOk result (λ copy. plain_expr copy ≡ join_expr (exprs_of parts.now)) }
{
    let parts = copy_exprs(alloc, parts)?;
    Ok(Expr::Join(parts))
}

// `isset` of operands.
#[cycle(copies)]
#[tactic(auto, using(php_syntax::proofs::Views::views))]
fn copy_isset(alloc: Global, parts: &[Expr]) -> Result<Expr, NoMemory>
    ensures { IfOk result (λ copy. plain_expr copy ≡ isset_expr (exprs_of parts.now)) }
{
    let parts = copy_exprs(alloc, parts)?;
    Ok(Expr::Isset(parts))
}

// An array literal.
#[cycle(copies)]
#[tactic(auto, using(php_syntax::proofs::Views::views))]
fn copy_array(alloc: Global, items: &[(Option<Expr>, Expr)]) -> Result<Expr, NoMemory>
    ensures { IfOk result (λ copy. plain_expr copy ≡ array_expr (items_of items.now)) }
{
    let items = copy_items(alloc, items)?;
    Ok(Expr::ArrayOf(items))
}

// A call.
#[cycle(copies)]
#[tactic(auto, using(php_syntax::proofs::Views::views))]
fn copy_call(alloc: Global, name: &Bytes, arguments: &[Expr]) -> Result<Expr, NoMemory>
    ensures { IfOk result (λ copy. plain_expr copy ≡ call_expr name.now (exprs_of arguments.now)) }
{
    let name = name.copy(alloc)?;
    let arguments = copy_exprs(alloc, arguments)?;
    Ok(Expr::Call(name, arguments))
}

// An assignment.
#[cycle(copies)]
#[tactic(auto, using(php_syntax::proofs::Views::views))]
fn copy_assign(alloc: Global, target: &Target, value: &Expr) -> Result<Expr, NoMemory>
    ensures { IfOk result (λ copy. plain_expr copy
        ≡ assign_expr (target_name target.now) (target_path target.now) (plain_expr value.now)) }
{
    let target = copy_target(alloc, target)?;
    let value = copy_box(alloc, value)?;
    Ok(Expr::Assign(target, value))
}

// An assignment that reads its target first.
#[cycle(copies)]
#[tactic(auto, using(php_syntax::proofs::Views::views))]
fn copy_update(
    alloc: Global,
    sign: UpdateSign,
    target: &Target,
    value: &Expr,
) -> Result<Expr, NoMemory>
    ensures { IfOk result (λ copy. plain_expr copy
        ≡ update_expr sign (target_name target.now) (target_path target.now) (plain_expr value.now)) }
{
    let target = copy_target(alloc, target)?;
    let value = copy_box(alloc, value)?;
    Ok(Expr::Update(sign, target, value))
}

/// A copy of an expression.
#[cycle(copies)]
#[tactic(auto, using(php_syntax::proofs::Views::views))]
pub fn copy_expr(alloc: Global, expr: &Expr) -> Result<Expr, NoMemory>
    ensures { IfOk result (λ copy. plain_expr copy ≡ plain_expr expr.now) }
{
    match expr {
        Expr::Null => Ok(Expr::Null),
        Expr::Flag(flag) => Ok(Expr::Flag(*flag)),
        Expr::Int(number) => Ok(Expr::Int(*number)),
        Expr::Super(name) => Ok(Expr::Super(*name)),
        Expr::Text(text) => {
            let text = text.copy(alloc)?;
            Ok(Expr::Text(text))
        }
        Expr::Var(name) => {
            let name = name.copy(alloc)?;
            Ok(Expr::Var(name))
        }
        Expr::Step { name, up, before } => {
            let name = name.copy(alloc)?;
            Ok(Expr::Step {
                name,
                up: *up,
                before: *before,
            })
        }
        Expr::Member(base, key) => copy_member(alloc, base, key),
        Expr::ArrayOf(items) => copy_array(alloc, items.as_slice()),
        Expr::Join(parts) => copy_join(alloc, parts.as_slice()),
        Expr::Neg(operand) => copy_neg(alloc, operand),
        Expr::Not(operand) => copy_not(alloc, operand),
        Expr::Arith(sign, left, right) => copy_arith(alloc, *sign, left, right),
        Expr::Compare(sign, left, right) => copy_compare(alloc, *sign, left, right),
        Expr::And(left, right) => copy_and(alloc, left, right),
        Expr::Or(left, right) => copy_or(alloc, left, right),
        Expr::Coalesce(left, right) => copy_coalesce(alloc, left, right),
        Expr::Choice(condition, middle, other) => {
            let condition = copy_box(alloc, condition)?;
            let middle = copy_boxed(alloc, middle)?;
            let other = copy_box(alloc, other)?;
            Ok(Expr::Choice(condition, middle, other))
        }
        Expr::Isset(places) => copy_isset(alloc, places.as_slice()),
        Expr::Empty(place) => copy_empty(alloc, place),
        Expr::Assign(target, value) => copy_assign(alloc, target, value),
        Expr::Update(sign, target, value) => {
            let copy = copy_update(alloc, *sign, target, value)?;
            Ok(copy)
        }
        Expr::Call(name, arguments) => copy_call(alloc, name, arguments.as_slice()),
    }
}
