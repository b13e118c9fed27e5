//! Where the machine is between statements, and what it has begun.

use text_base::Bytes;

/// A loop whose condition stands before its body.
#[derive(Debug, Drop)]
pub enum Loop {
    /// `while`
    While,
    /// `for`, with so many expressions that begin it, a condition or none, and so many that end a
    /// turn.
    For {
        begin: usize,
        condition: bool,
        next: usize,
    },
    /// `foreach`, with the variables of the key and of the value.
    Each {
        key: Option<Bytes>,
        value: Bytes,
    },
}

/// A row of expressions with commas between them.
#[derive(Debug, Drop)]
pub enum Row {
    /// Those of `echo`.
    Echo,
    /// Those that begin a `for`.
    Begin,
    /// Those that end a turn of a `for` with so many that begin it, and a condition or none.
    Next { begin: usize, condition: bool },
}

/// Where the machine is.
#[derive(Debug, Drop)]
pub enum Focus {
    /// A statement begins here.
    Begin,
    /// A statement was read, or none yet where something was begun.
    Behind,
    /// A row that may be empty begins here.
    Start(Row),
    /// So many expressions of a row were read.
    Listed { row: Row, count: usize },
    /// The condition of a `for` with so many expressions that begin it stands here, or none.
    Condition(usize),
    /// The parameters of a function begin here.
    Parameters,
    /// A parameter stands here.
    Parameter,
    /// A parameter was read.
    BehindParameter,
}

/// What was begun and waits for statements.
#[derive(Debug, Drop)]
pub enum Frame {
    /// `{`
    Block,
    /// The last of so many arms of an `if` in the form with statements.
    Arm(usize),
    /// `else` behind so many arms.
    Else(usize),
    /// The last of so many arms of an `if` in the form with `:`.
    ColonArm(usize),
    /// `else :` behind so many arms.
    ColonElse(usize),
    /// A loop whose body is a statement.
    Body(Loop),
    /// A loop whose body begins with `:`.
    ColonBody(Loop),
    /// `do`
    Do,
    /// The body of a function.
    Function,
}
