//! What a run wants a unit for.

use crate::{End, Looping, Next, Wait, Walking};
use php_syntax::tree::{FunctionDef, Stmt};
use php_values::{Key, Value};

/// What a unit is wanted for.
#[derive(Drop)]
pub enum Wanted<'a> {
    /// A statement, which is no `include`.
    Statement(&'a Stmt),
    /// A turn of a loop.
    Turn(Looping<'a>),
    /// A turn of a walk, with this key and this value.
    Step(Key, Value, Walking<'a>),
    /// A call of a function with these arguments, and what waits for the value of the expression
    /// that it stands in.
    Call(&'a FunctionDef, Vec<Value>, Wait<'a>),
}

/// Where a run can go no further without a unit.
#[derive(Drop)]
pub enum Settled<'a> {
    /// A unit is wanted.
    Wants(Wanted<'a>),
    /// The run ends.
    Over(End),
}

/// A move that was made, or where a run can go no further without a unit.
#[derive(Drop)]
pub(crate) enum Moved<'a> {
    On(Next<'a>),
    At(Settled<'a>),
}
