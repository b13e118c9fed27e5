//! What an evaluation has still to do.

use php_syntax::tree::{ArithSign, CompareSign, Expr, FunctionDef, UpdateSign};
use php_values::{Array, Key, Value};
use plain_values::Fault;
use text_base::Bytes;

/// What values in a row are for.
#[derive(Clone, Copy)]
pub enum Purpose<'a> {
    /// Their texts are joined.
    Join,
    /// It is asked whether none is null.
    Isset,
    /// They are the arguments of a function, by its name in lower case.
    Call(&'a Bytes),
}

/// What the subscripts of a target are for.
#[derive(Clone, Copy)]
pub enum Writing<'a> {
    /// An assignment of the value of an expression to the variable.
    Assign(&'a Bytes, &'a Expr),
    /// An assignment to the variable that reads its target first, by the expression of its right
    /// side.
    Update(UpdateSign, &'a Bytes, &'a Expr),
}

/// What waits for the value of an expression.
#[derive(Drop)]
pub enum Frame<'a> {
    /// Reads a member of the value by this subscript.
    Subscript(&'a Expr),
    /// Reads a member of this value by the value.
    Container(Value),
    /// Puts this item at the key that the value is into an array, and then the items behind it.
    ItemKey(&'a Expr, &'a [(Option<Expr>, Expr)], Array),
    /// Puts the value at this key into an array, or behind the others, and then the items behind
    /// it.
    ItemValue(Option<Value>, &'a [(Option<Expr>, Expr)], Array),
    /// Goes on with the expressions of a row behind these values and the value.
    Row(Purpose<'a>, &'a [Expr], Vec<Value>),
    /// Goes on with the subscripts of a target behind these and the value.
    Keys(Writing<'a>, &'a [Option<Expr>], Vec<Option<Value>>),
    /// Negates the value.
    Negation,
    /// Answers whether the value is false.
    Not,
    /// Answers whether the value is true.
    Truth,
    /// Goes on with the right operand.
    ArithRight(ArithSign, &'a Expr),
    /// Takes the value as the right operand of this left one.
    ArithLeft(ArithSign, Value),
    /// Goes on with the right side of a comparison.
    CompareRight(CompareSign, &'a Expr),
    /// Compares this left side with the value.
    CompareLeft(CompareSign, Value),
    /// Goes on with the right side where the value is true.
    And(&'a Expr),
    /// Goes on with the right side where the value is false.
    Or(&'a Expr),
    /// Goes on with the right side where the value is null.
    Coalesce(&'a Expr),
    /// Goes on with the first, or gives the value where there is none, where the value is true, and
    /// else with the second.
    Choice(Option<&'a Expr>, &'a Expr),
    /// Writes the value to the variable at the end of these subscripts.
    Assign(&'a Bytes, Vec<Option<Value>>),
    /// Writes what the sign makes of this old value and the value to the variable at the end of
    /// this path.
    Update(UpdateSign, &'a Bytes, Vec<Option<Key>>, Value),
}

/// What an evaluation does next.
#[derive(Drop)]
pub enum Focus<'a> {
    /// Evaluates an expression.
    Eval(&'a Expr),
    /// Hands a value to what waits for it.
    Value(Value),
    /// Evaluates the expressions of a row behind these values.
    Row(Purpose<'a>, &'a [Expr], Vec<Value>),
    /// Puts items into an array.
    Items(&'a [(Option<Expr>, Expr)], Array),
    /// Evaluates subscripts of a target behind these.
    Keys(Writing<'a>, &'a [Option<Expr>], Vec<Option<Value>>),
    /// Calls a function of the script with these arguments.
    Call(&'a FunctionDef, Vec<Value>),
    /// Ends the run by a fault.
    Fault(Fault),
}

/// Where an evaluation stops.
#[derive(Drop)]
pub enum Pause<'a> {
    /// The expression has this value.
    Value(Value),
    /// A function of the script is called with these arguments.
    Call(&'a FunctionDef, Vec<Value>),
    /// A fault ends the run.
    Fault(Fault),
}
