//! What a run of statements has still to do. A body is referred to by its vector, and not as a
//! slice: a type may reach only so many fields through references, and a vector's items do not
//! count.

use php_syntax::tree::{Expr, Stmt};
use php_values::{Key, Value, Walk};
use plain_values::Fault;
use text_base::Bytes;

/// How a run ends.
#[derive(Clone, Copy, Debug, PartialEq, Eq)]
pub enum End {
    /// At the end of the script, or at `exit` or `die`.
    Ended,
    /// By a fault.
    Fault(Fault),
    /// Where no unit was left.
    Spent,
    /// Where a call would have been the 257th open one.
    Deep,
}

/// How a statement was left.
#[derive(Drop)]
pub enum Flow {
    /// At its end.
    GoesOn,
    /// By `break`.
    Breaks,
    /// By `continue`.
    Continues,
    /// By `return`, with a value.
    Returns(Value),
}

/// A `while` or a `for`.
#[derive(Clone, Copy)]
pub struct Looping<'a> {
    /// The test, which holds where none is written.
    pub test: Option<&'a Expr>,
    /// What is evaluated behind each turn.
    pub behind: &'a [Expr],
    /// The statements of a turn.
    pub body: &'a Vec<Stmt>,
}

/// A `foreach`.
#[derive(Drop)]
pub struct Walking<'a> {
    /// The pairs that are left.
    pub pairs: Walk,
    /// The variable of the key, if one is written.
    pub key: Option<&'a Bytes>,
    /// The variable of the value.
    pub value: &'a Bytes,
    /// The statements of a turn.
    pub body: &'a Vec<Stmt>,
}

/// What waits for the value of an expression.
#[derive(Drop)]
pub enum Wait<'a> {
    /// Prints the value, and goes on with these.
    Echo(&'a [Expr]),
    /// Lets the value go.
    Run,
    /// Runs the statements where the value is true, and else goes on with these arms, behind which
    /// the last statements stand.
    Arm(&'a Vec<Stmt>, &'a [(Expr, Vec<Stmt>)], &'a Vec<Stmt>),
    /// Begins a turn of the loop where the value is true.
    Test(Looping<'a>),
    /// Goes on with these, and then with the test of the loop.
    Before(&'a [Expr], Looping<'a>),
    /// Walks over the value, with these variables of the key and of the value, and these statements
    /// in each turn.
    Each(Option<&'a Bytes>, &'a Bytes, &'a Vec<Stmt>),
    /// Leaves the function with the value.
    Return,
    /// Prints the value and ends the run.
    Quit,
}

/// What waits for the end of a statement.
#[derive(Drop)]
pub enum Task<'a> {
    /// Goes on with these statements.
    Rest(&'a [Stmt]),
    /// Goes on behind a turn of a loop.
    Loop(Looping<'a>),
    /// Goes on with the next pair.
    Walk(Walking<'a>),
}

/// What a run of statements does next.
#[derive(Drop)]
pub enum Next<'a> {
    /// Runs these statements in turn.
    Block(&'a [Stmt]),
    /// Hands on how a statement was left.
    Left(Flow),
    /// Evaluates an expression for what waits for its value.
    Eval(&'a Expr, Wait<'a>),
    /// Takes a unit for a turn of a loop.
    Turn(Looping<'a>),
    /// Takes a unit for a turn of a walk, with this key and this value.
    Step(Key, Value, Walking<'a>),
    /// Ends the run.
    Over(End),
}
