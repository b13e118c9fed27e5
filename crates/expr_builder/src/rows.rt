//! Values in a row, taken off at once.

ghost use Rattle.std.specs.Prelude.{◌≡◌, ◌+◌, ◌&&◌, ◌||◌, [], List, Bool, Option, Some, None, IfOk, MatchOption};
ghost use Rattle.expr_machine.specs.Values as plain;
ghost use Rattle.php_syntax.specs.Trees.{plain_expr};
ghost use Rattle.expr_machine.specs.Values.{take_values};
ghost use Rattle.expr_builder.specs.Views.{plain_value, plain_values};
ghost use Rattle.expr_builder.specs.Rows.{exprs_shown, items_shown, path_shown, IsRow, IsItems, IsPath};

use crate::value::Value;
use crate::values::Values;
use php_syntax::tree::Expr;
use std::alloc::Global;
use text_base::NoMemory;

/// Trees in a row, the last one first, and the height of the highest; and whether all are variables
/// with subscripts.
#[derive(Debug, Drop)]
pub(crate) struct Row {
    pub(crate) exprs: Option<(Vec<Expr>, u32)>,
    pub(crate) places: bool,
}

/// The items of an array, the last one first, and the height of the highest.
#[derive(Debug, Drop)]
pub(crate) struct Items {
    pub(crate) items: Option<(Vec<(Option<Expr>, Expr)>, u32)>,
}

/// Keys, the last one first, and the height of the highest; whether none is left out, and whether
/// none but the last.
#[derive(Debug, Drop)]
pub(crate) struct Path {
    pub(crate) keys: Option<(Vec<Option<Expr>>, u32)>,
    pub(crate) complete: bool,
    pub(crate) before_last: bool,
}

// Whether both hold.
fn both(one: bool, other: bool) -> bool
    ensures { result ≡ (one && other) }
{
    one && other
}

// Whether one of two holds.
fn either(one: bool, other: bool) -> bool
    ensures { result ≡ (one || other) }
{
    one || other
}

// One more tree before those of a row.
fn add_expr(
    row: Option<(Vec<Expr>, u32)>,
    value: Value,
) -> Result<Option<(Vec<Expr>, u32)>, NoMemory>
    ensures { IfOk result (λ r. exprs_shown r
        ≡ plain.add_expr (plain_value value) (exprs_shown row)) }
{
    match value {
        Value::Tall { .. } => Ok(None),
        Value::Absent => Ok(None),
        Value::Known { tree, height } => match row {
            None => Ok(None),
            Some((mut exprs, highest)) => {
                exprs.push(tree)?;
                Ok(Some((exprs, height.max(highest))))
            }
        },
    }
}

// One more item before those of a row, with no key.
fn add_unkeyed(
    row: Option<(Vec<(Option<Expr>, Expr)>, u32)>,
    value: Value,
) -> Result<Option<(Vec<(Option<Expr>, Expr)>, u32)>, NoMemory>
    ensures { IfOk result (λ r. items_shown r
        ≡ plain.add_item plain.absent_value (plain_value value) (items_shown row)) }
{
    match value {
        Value::Tall { .. } => Ok(None),
        Value::Absent => Ok(None),
        Value::Known { tree, height } => match row {
            None => Ok(None),
            Some((mut items, highest)) => {
                items.push((None, tree))?;
                Ok(Some((items, height.max(highest))))
            }
        },
    }
}

// One more item before those of a row, with a key.
fn add_keyed(
    row: Option<(Vec<(Option<Expr>, Expr)>, u32)>,
    key: Expr,
    key_height: u32,
    value: Value,
) -> Result<Option<(Vec<(Option<Expr>, Expr)>, u32)>, NoMemory>
    ensures { IfOk result (λ r. items_shown r
        ≡ plain.add_item (plain.known_value (plain_expr key) key_height) (plain_value value)
        (items_shown row)) }
{
    match value {
        Value::Tall { .. } => Ok(None),
        Value::Absent => Ok(None),
        Value::Known { tree, height } => match row {
            None => Ok(None),
            Some((mut items, highest)) => {
                items.push((Some(key), tree))?;
                Ok(Some((items, key_height.max(height.max(highest)))))
            }
        },
    }
}

// One more item before those of a row.
fn add_item(
    row: Option<(Vec<(Option<Expr>, Expr)>, u32)>,
    key: Value,
    value: Value,
) -> Result<Option<(Vec<(Option<Expr>, Expr)>, u32)>, NoMemory>
    ensures { IfOk result (λ r. items_shown r
        ≡ plain.add_item (plain_value key) (plain_value value) (items_shown row)) }
{
    match key {
        Value::Tall { .. } => Ok(None),
        Value::Absent => add_unkeyed(row, value),
        Value::Known { tree, height } => add_keyed(row, tree, height, value),
    }
}

// One more key before those of a path.
fn add_key(
    path: Option<(Vec<Option<Expr>>, u32)>,
    key: Value,
) -> Result<Option<(Vec<Option<Expr>>, u32)>, NoMemory>
    ensures { IfOk result (λ r. path_shown r ≡ plain.add_key (plain_value key) (path_shown path)) }
{
    match path {
        None => Ok(None),
        Some((mut keys, highest)) => match key {
            Value::Tall { .. } => Ok(None),
            Value::Absent => {
                keys.push(None)?;
                Ok(Some((keys, highest)))
            }
            Value::Known { tree, height } => {
                keys.push(Some(tree))?;
                Ok(Some((keys, height.max(highest))))
            }
        },
    }
}

impl Values {
    /// Takes so many values off, and answers their trees.
    pub(crate) fn take_exprs(
        &mut self,
        alloc: Global,
        count: usize,
    ) -> Result<Option<Row>, NoMemory>
        ensures { IfOk result (λ found. MatchOption found
            (take_values count [] (plain_values self.old) ≡ None)
            (λ row. IsRow (take_values count [] (plain_values self.old)) (exprs_shown row.exprs)
            row.places (plain_values self.new))) }
    {
        let mut exprs = Some((Vec::new(alloc), 0));
        let mut places = true;
        let mut left = count;
        'taking: while left > 0 {
            match self.pop() {
                None => return Ok(None),
                Some(value) => {
                    let place = value.is_place();
                    places = both(place, places);
                    exprs = add_expr(exprs, value)?;
                    left -= 1;
                }
            }
        }
        Ok(Some(Row { exprs, places }))
    }

    /// Takes so many items off, each a key and a value.
    pub(crate) fn take_items(
        &mut self,
        alloc: Global,
        count: usize,
    ) -> Result<Option<Items>, NoMemory>
        ensures { IfOk result (λ found. MatchOption found
            (take_values (count + count) [] (plain_values self.old) ≡ None)
            (λ row. IsItems (take_values (count + count) [] (plain_values self.old))
            (items_shown row.items) (plain_values self.new))) }
    {
        let mut items = Some((Vec::new(alloc), 0));
        let mut left = count;
        'taking: while left > 0 {
            match self.pop_two() {
                None => return Ok(None),
                Some((key, value)) => {
                    items = add_item(items, key, value)?;
                    left -= 1;
                }
            }
        }
        Ok(Some(Items { items }))
    }

    /// Takes so many keys off.
    pub(crate) fn take_path(
        &mut self,
        alloc: Global,
        count: usize,
    ) -> Result<Option<Path>, NoMemory>
        ensures { IfOk result (λ found. MatchOption found
            (take_values count [] (plain_values self.old) ≡ None)
            (λ path. IsPath (take_values count [] (plain_values self.old)) (path_shown path.keys)
            path.complete path.before_last (plain_values self.new))) }
    {
        let mut keys = Some((Vec::new(alloc), 0));
        let mut complete = true;
        let mut before_last = true;
        let mut first = true;
        let mut left = count;
        'taking: while left > 0 {
            match self.pop() {
                None => return Ok(None),
                Some(key) => {
                    let present = !key.is_absent();
                    before_last = both(either(first, present), before_last);
                    complete = both(present, complete);
                    first = false;
                    keys = add_key(keys, key)?;
                    left -= 1;
                }
            }
        }
        Ok(Some(Path {
            keys,
            complete,
            before_last,
        }))
    }
}
