//! The syntax trees of a script.

use text_base::Bytes;

/// The sign of an arithmetic operation on two integers.
#[derive(Clone, Copy, Debug, PartialEq, Eq)]
pub enum ArithSign {
    /// `+`
    Add,
    /// `-`
    Sub,
    /// `*`
    Mul,
    /// `%`
    Rem,
}

/// The sign of a comparison.
#[derive(Clone, Copy, Debug, PartialEq, Eq)]
pub enum CompareSign {
    /// `==`
    Equal,
    /// `!=` and `<>`
    NotEqual,
    /// `===`
    Identical,
    /// `!==`
    NotIdentical,
    /// `<`
    Less,
    /// `<=`
    LessEqual,
    /// `>`
    Greater,
    /// `>=`
    GreaterEqual,
}

/// The sign of an assignment that reads its target first.
#[derive(Clone, Copy, Debug, PartialEq, Eq)]
pub enum UpdateSign {
    /// `.=`
    Join,
    /// `+=`
    Add,
    /// `-=`
    Sub,
    /// `*=`
    Mul,
    /// `%=`
    Rem,
    /// `??=`
    Coalesce,
}

/// A variable that holds what the request brought.
#[derive(Clone, Copy, Debug, PartialEq, Eq)]
pub enum SuperName {
    /// `$_GET`
    Get,
    /// `$_POST`
    Post,
    /// `$_COOKIE`
    Cookie,
    /// `$_REQUEST`
    Request,
    /// `$_SERVER`
    Server,
}

/// An expression.
#[derive(Debug)]
#[cycle(tree)]
pub enum Expr {
    /// `null`
    Null,
    /// `true` or `false`
    Flag(bool),
    /// An integer literal.
    Int(i64),
    /// A text literal.
    Text(Bytes),
    /// A variable, by its name without `$`.
    Var(Bytes),
    /// A variable of the request.
    Super(SuperName),
    /// A member of the first by the key that the second gives.
    Member(Box<Expr>, Box<Expr>),
    /// An array literal: for each item its key, if one is written, and its value.
    ArrayOf(Vec<(Option<Expr>, Expr)>),
    /// A chain of `.`, or a text with interpolation.
    Join(Vec<Expr>),
    /// `-` before an operand.
    Neg(Box<Expr>),
    /// `!` before an operand.
    Not(Box<Expr>),
    /// An arithmetic operation.
    Arith(ArithSign, Box<Expr>, Box<Expr>),
    /// A comparison.
    Compare(CompareSign, Box<Expr>, Box<Expr>),
    /// `&&`
    And(Box<Expr>, Box<Expr>),
    /// `||`
    Or(Box<Expr>, Box<Expr>),
    /// `??`
    Coalesce(Box<Expr>, Box<Expr>),
    /// `?:`, whose middle operand may be left out.
    Choice(Box<Expr>, Option<Box<Expr>>, Box<Expr>),
    /// `isset` of one or more operands.
    Isset(Vec<Expr>),
    /// `empty` of an operand.
    Empty(Box<Expr>),
    /// `=`
    Assign(Target, Box<Expr>),
    /// An assignment that reads its target first.
    Update(UpdateSign, Target, Box<Expr>),
    /// `++` (`up`) or `--` of a variable, before it or after it.
    Step { name: Bytes, up: bool, before: bool },
    /// A call of a function, by its name in lower case.
    Call(Bytes, Vec<Expr>),
}

// Written out, so that an expression that is let go is one call to the proofs above, and not a case
// for each variant.
impl Drop for Expr {
    #[cycle(tree)]
    fn drop(self) {
        match self {
            Expr::Null => {}
            Expr::Flag(_) => {}
            Expr::Int(_) => {}
            Expr::Text(_) => {}
            Expr::Var(_) => {}
            Expr::Super(_) => {}
            Expr::Member(_, _) => {}
            Expr::ArrayOf(_) => {}
            Expr::Join(_) => {}
            Expr::Neg(_) => {}
            Expr::Not(_) => {}
            Expr::Arith(_, _, _) => {}
            Expr::Compare(_, _, _) => {}
            Expr::And(_, _) => {}
            Expr::Or(_, _) => {}
            Expr::Coalesce(_, _) => {}
            Expr::Choice(_, _, _) => {}
            Expr::Isset(_) => {}
            Expr::Empty(_) => {}
            Expr::Assign(_, _) => {}
            Expr::Update(_, _, _) => {}
            Expr::Step {
                name: _,
                up: _,
                before: _,
            } => {}
            Expr::Call(_, _) => {}
        }
    }
}

/// What an assignment writes: a variable, or a member of it by a path of keys, where `[]` is no
/// key.
#[derive(Debug, Drop)]
#[cycle(tree)]
pub struct Target {
    /// The variable's name without `$`.
    pub name: Bytes,
    /// The keys, the outermost first.
    pub path: Vec<Option<Expr>>,
}

/// A statement.
#[derive(Debug)]
pub enum Stmt {
    /// The bytes outside PHP.
    Inline(Bytes),
    /// `echo` of one or more expressions, and `print` of one.
    Echo(Vec<Expr>),
    /// An expression as a statement.
    Run(Expr),
    /// The arms of an `if`, each with its condition, and what stands after the last `else`.
    If(Vec<(Expr, Vec<Stmt>)>, Vec<Stmt>),
    /// `while`
    While(Expr, Vec<Stmt>),
    /// `do` .. `while`
    DoWhile(Vec<Stmt>, Expr),
    /// `for`: what begins it, its condition, what ends each turn, and its body.
    For(Vec<Expr>, Option<Expr>, Vec<Expr>, Vec<Stmt>),
    /// `foreach`: the array, the variable of the key, the variable of the value, and the body.
    Each(Expr, Option<Bytes>, Bytes, Vec<Stmt>),
    /// `break`
    Break,
    /// `continue`
    Continue,
    /// `return`, of a value or of none.
    Return(Option<Expr>),
    /// `include` and `require` of a file, by its path.
    Include(Bytes),
    /// `exit` and `die`, with what is printed before the run ends, if anything is.
    Quit(Option<Expr>),
}

// Written out, as that of `Expr` is.
impl Drop for Stmt {
    fn drop(self) {
        match self {
            Stmt::Inline(_) => {}
            Stmt::Echo(_) => {}
            Stmt::Run(_) => {}
            Stmt::If(_, _) => {}
            Stmt::While(_, _) => {}
            Stmt::DoWhile(_, _) => {}
            Stmt::For(_, _, _, _) => {}
            Stmt::Each(_, _, _, _) => {}
            Stmt::Break => {}
            Stmt::Continue => {}
            Stmt::Return(_) => {}
            Stmt::Include(_) => {}
            Stmt::Quit(_) => {}
        }
    }
}

/// A parameter of a function.
#[derive(Debug, Drop)]
pub struct Param {
    /// Its name without `$`.
    pub name: Bytes,
    /// Its value where a call leaves it out.
    pub default: Option<Expr>,
}

/// A function.
#[derive(Debug, Drop)]
pub struct FunctionDef {
    /// Its name in lower case.
    pub name: Bytes,
    /// Its parameters, whose names differ.
    pub params: Vec<Param>,
    /// Its statements.
    pub body: Vec<Stmt>,
}

/// The tree of a file.
#[derive(Debug, Drop)]
pub struct FileTree {
    /// The statements outside functions, in their order.
    pub body: Vec<Stmt>,
    /// The functions, in their order.
    pub functions: Vec<FunctionDef>,
}
