//! The values that are made of others.

ghost use Rattle.std.specs.Prelude.{◌≡◌, ◌+◌, ℕ, List, false, max, IfOk};
ghost use Rattle.std.specs.Str.{str_to_ascii_lowercase};
ghost use Rattle.php_syntax.specs.Trees.{plain_expr, coalesce_expr, choice_expr, no_expr, some_expr, member_expr, assign_expr, update_expr, path_of};
ghost use Rattle.expr_machine.specs.Values as plain;
ghost use Rattle.expr_builder.specs.Views.{plain_value};
ghost use Rattle.expr_builder.specs.Rows.{exprs_shown, items_shown, path_shown};

use crate::trees::{node, operator_tree, prefix_tree};
use crate::value::{Value, both_known};
use php_syntax::tree::{Expr, Target, UpdateSign};
use script_grammar::operator::{Operator, Prefix};
use std::alloc::Global;
use text_base::limits::HEIGHT_LIMIT;
use text_base::{Bytes, NoMemory};

/// An operator before an operand.
pub(crate) fn prefix_value(alloc: Global, prefix: Prefix, operand: Value) -> Result<Value, NoMemory>
    ensures { IfOk result (λ v. plain_value v ≡ plain.prefix_value prefix (plain_value operand)) }
{
    match operand {
        Value::Known { tree, height } => {
            let tree = prefix_tree(alloc, prefix, tree)?;
            Ok(node(tree, height, false))
        }
        Value::Tall { .. } => Ok(Value::Tall { place: false }),
        Value::Absent => Ok(Value::Tall { place: false }),
    }
}

/// `empty` of an operand.
#[tactic(auto, using(php_syntax::proofs::Views::views))]
pub(crate) fn empty_value(alloc: Global, operand: Value) -> Result<Value, NoMemory>
    ensures { IfOk result (λ v. plain_value v ≡ plain.empty_value (plain_value operand)) }
{
    match operand {
        Value::Known { tree, height } => {
            let tree = Expr::Empty(Box::new(alloc, tree)?);
            Ok(node(tree, height, false))
        }
        Value::Tall { .. } => Ok(Value::Tall { place: false }),
        Value::Absent => Ok(Value::Tall { place: false }),
    }
}

/// An operator between two operands.
#[tactic(auto, using(crate::proofs::NodeLemmas::nodes))]
pub(crate) fn binary_value(
    alloc: Global,
    operator: Operator,
    left: Value,
    right: Value,
) -> Result<Value, NoMemory>
    ensures { IfOk result (λ v. plain_value v
        ≡ plain.binary_value operator (plain_value left) (plain_value right)) }
{
    match both_known(left, right) {
        None => Ok(Value::Tall { place: false }),
        Some((left, right, height)) => {
            let tree = operator_tree(alloc, operator, left, right)?;
            Ok(node(tree, height, false))
        }
    }
}

// `??` between two trees.
#[tactic(auto, using(php_syntax::proofs::Views::views))]
fn coalesce_tree(alloc: Global, left: Expr, right: Expr) -> Result<Expr, NoMemory>
    ensures { IfOk result (λ e. plain_expr e ≡ coalesce_expr (plain_expr left) (plain_expr right)) }
{
    let left = Box::new(alloc, left)?;
    let right = Box::new(alloc, right)?;
    Ok(Expr::Coalesce(left, right))
}

/// `??` between two operands.
#[tactic(auto, using(crate::proofs::NodeLemmas::nodes))]
pub(crate) fn coalesce_value(alloc: Global, left: Value, right: Value) -> Result<Value, NoMemory>
    ensures { IfOk result (λ v. plain_value v
        ≡ plain.coalesce_value (plain_value left) (plain_value right)) }
{
    match both_known(left, right) {
        None => Ok(Value::Tall { place: false }),
        Some((left, right, height)) => {
            let tree = coalesce_tree(alloc, left, right)?;
            Ok(node(tree, height, false))
        }
    }
}

// `?:` between two trees.
#[tactic(auto, unfolding(php_syntax::specs::Trees::plain_expr))]
fn short_choice_tree(alloc: Global, left: Expr, right: Expr) -> Result<Expr, NoMemory>
    ensures { IfOk result (λ e. plain_expr e
        ≡ choice_expr (plain_expr left) no_expr (plain_expr right)) }
{
    let left = Box::new(alloc, left)?;
    let right = Box::new(alloc, right)?;
    Ok(Expr::Choice(left, None, right))
}

/// `?:` between two operands.
#[tactic(auto, using(crate::proofs::NodeLemmas::nodes))]
pub(crate) fn short_choice_value(
    alloc: Global,
    left: Value,
    right: Value,
) -> Result<Value, NoMemory>
    ensures { IfOk result (λ v. plain_value v
        ≡ plain.short_choice_value (plain_value left) (plain_value right)) }
{
    match both_known(left, right) {
        None => Ok(Value::Tall { place: false }),
        Some((left, right, height)) => {
            let tree = short_choice_tree(alloc, left, right)?;
            Ok(node(tree, height, false))
        }
    }
}

// `?` and `:` between three trees.
#[tactic(auto, unfolding(php_syntax::specs::Trees::plain_expr))]
fn full_choice_tree(
    alloc: Global,
    condition: Expr,
    middle: Expr,
    right: Expr,
) -> Result<Expr, NoMemory>
    ensures { IfOk result (λ e. plain_expr e
        ≡ choice_expr (plain_expr condition) (some_expr (plain_expr middle)) (plain_expr right)) }
{
    let condition = Box::new(alloc, condition)?;
    let middle = Box::new(alloc, middle)?;
    let right = Box::new(alloc, right)?;
    Ok(Expr::Choice(condition, Some(middle), right))
}

/// `?` and `:` between three operands.
#[tactic(auto, using(crate::proofs::NodeLemmas::nodes))]
pub(crate) fn full_choice_value(
    alloc: Global,
    condition: Value,
    middle: Value,
    right: Value,
) -> Result<Value, NoMemory>
    ensures { IfOk result (λ v. plain_value v
        ≡ plain.full_choice_value (plain_value condition) (plain_value middle)
        (plain_value right)) }
{
    match both_known(middle, right) {
        None => Ok(Value::Tall { place: false }),
        Some((middle, right, height)) => match condition {
            Value::Tall { .. } => Ok(Value::Tall { place: false }),
            Value::Absent => Ok(Value::Tall { place: false }),
            Value::Known {
                tree,
                height: first,
            } => {
                let tree = full_choice_tree(alloc, tree, middle, right)?;
                Ok(node(tree, first.max(height), false))
            }
        },
    }
}

// A member of a tree.
#[tactic(auto, using(php_syntax::proofs::Views::views))]
fn member_tree(alloc: Global, array: Expr, key: Expr) -> Result<Expr, NoMemory>
    ensures { IfOk result (λ e. plain_expr e ≡ member_expr (plain_expr array) (plain_expr key)) }
{
    let array = Box::new(alloc, array)?;
    let key = Box::new(alloc, key)?;
    Ok(Expr::Member(array, key))
}

/// A member of a value.
#[tactic(auto, using(crate::proofs::NodeLemmas::nodes))]
pub(crate) fn member_value(alloc: Global, array: Value, key: Value) -> Result<Value, NoMemory>
    ensures { IfOk result (λ v. plain_value v
        ≡ plain.member_value (plain_value array) (plain_value key)) }
{
    let place = array.is_place();
    match both_known(array, key) {
        None => Ok(Value::Tall { place }),
        Some((array, key, height)) => {
            let tree = member_tree(alloc, array, key)?;
            Ok(node(tree, height, place))
        }
    }
}

/// A chain of `.`, whose operands stand in the row with the last one first.
#[tactic(auto, using(php_syntax::proofs::Views::views))]
pub(crate) fn join_value(row: Option<(Vec<Expr>, u32)>) -> Value
    ensures { plain_value result ≡ plain.join_value (exprs_shown row) }
{
    match row {
        None => Value::Tall { place: false },
        Some((mut exprs, height)) => {
            exprs.reverse();
            node(Expr::Join(exprs), height, false)
        }
    }
}

/// `isset` of such a row.
#[tactic(auto, using(php_syntax::proofs::Views::views))]
pub(crate) fn isset_value(row: Option<(Vec<Expr>, u32)>) -> Value
    ensures { plain_value result ≡ plain.isset_value (exprs_shown row) }
{
    match row {
        None => Value::Tall { place: false },
        Some((mut exprs, height)) => {
            exprs.reverse();
            node(Expr::Isset(exprs), height, false)
        }
    }
}

/// A call of a function with the arguments of such a row; the name is given in lower case.
#[tactic(auto, using(php_syntax::proofs::Views::views))]
pub(crate) fn call_value(name: Bytes, row: Option<(Vec<Expr>, u32)>) -> Value
    ensures { (f : List ℕ) → name ≡ str_to_ascii_lowercase f → plain_value result
        ≡ plain.call_value f (exprs_shown row) }
{
    match row {
        None => Value::Tall { place: false },
        Some((mut exprs, height)) => {
            exprs.reverse();
            node(Expr::Call(name, exprs), height, false)
        }
    }
}

/// An array of items, the last one first.
#[tactic(auto, using(php_syntax::proofs::Views::views))]
pub(crate) fn array_value(row: Option<(Vec<(Option<Expr>, Expr)>, u32)>) -> Value
    ensures { plain_value result ≡ plain.array_value (items_shown row) }
{
    match row {
        None => Value::Tall { place: false },
        Some((mut items, height)) => {
            items.reverse();
            node(Expr::ArrayOf(items), height, false)
        }
    }
}

// A tree over a path of keys and a value.
fn over_path(tree: Expr, path_height: u32, height: u32) -> Value
    ensures { plain_value result
        ≡ plain.node_value (plain_expr tree) (max (1 + path_height) height) false }
{
    if path_height < HEIGHT_LIMIT {
        return node(tree, (path_height + 1).max(height), false);
    }
    Value::Tall { place: false }
}

// The tree of an assignment.
#[tactic(auto, using(php_syntax::proofs::Views::views))]
fn assign_tree(
    alloc: Global,
    name: Bytes,
    path: Vec<Option<Expr>>,
    value: Expr,
) -> Result<Expr, NoMemory>
    ensures { IfOk result (λ e. plain_expr e
        ≡ assign_expr name (path_of path.items) (plain_expr value)) }
{
    let value = Box::new(alloc, value)?;
    Ok(Expr::Assign(Target { name, path }, value))
}

/// An assignment to a variable by keys, the last one first.
pub(crate) fn assign_value(
    alloc: Global,
    name: Bytes,
    path: Option<(Vec<Option<Expr>>, u32)>,
    value: Value,
) -> Result<Value, NoMemory>
    ensures { IfOk result (λ v. plain_value v
        ≡ plain.assign_value name (path_shown path) (plain_value value)) }
{
    match path {
        None => Ok(Value::Tall { place: false }),
        Some((mut path, path_height)) => match value {
            Value::Tall { .. } => Ok(Value::Tall { place: false }),
            Value::Absent => Ok(Value::Tall { place: false }),
            Value::Known { tree, height } => {
                path.reverse();
                let tree = assign_tree(alloc, name, path, tree)?;
                Ok(over_path(tree, path_height, height))
            }
        },
    }
}

// The tree of an assignment that reads its target first.
#[tactic(auto, using(php_syntax::proofs::Views::views))]
fn update_tree(
    alloc: Global,
    sign: UpdateSign,
    name: Bytes,
    path: Vec<Option<Expr>>,
    value: Expr,
) -> Result<Expr, NoMemory>
    ensures { IfOk result (λ e. plain_expr e
        ≡ update_expr sign name (path_of path.items) (plain_expr value)) }
{
    let value = Box::new(alloc, value)?;
    Ok(Expr::Update(sign, Target { name, path }, value))
}

/// An assignment that reads its target first.
pub(crate) fn update_value(
    alloc: Global,
    sign: UpdateSign,
    name: Bytes,
    path: Option<(Vec<Option<Expr>>, u32)>,
    value: Value,
) -> Result<Value, NoMemory>
    ensures { IfOk result (λ v. plain_value v
        ≡ plain.update_value sign name (path_shown path) (plain_value value)) }
{
    match path {
        None => Ok(Value::Tall { place: false }),
        Some((mut path, path_height)) => match value {
            Value::Tall { .. } => Ok(Value::Tall { place: false }),
            Value::Absent => Ok(Value::Tall { place: false }),
            Value::Known { tree, height } => {
                path.reverse();
                let tree = update_tree(alloc, sign, name, path, tree)?;
                Ok(over_path(tree, path_height, height))
            }
        },
    }
}
