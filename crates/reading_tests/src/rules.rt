//! The grammar. Made by tools/tables.py.

use lr_tables::Rule;

const END: u16 = 0;
/// The terminal ECHO.
pub const ECHO: u16 = 1;
/// The terminal IF.
pub const IF: u16 = 2;
/// The terminal ELSE.
pub const ELSE: u16 = 3;
/// The terminal SEMI.
pub const SEMI: u16 = 4;
/// The terminal OPEN.
pub const OPEN: u16 = 5;
/// The terminal CLOSE.
pub const CLOSE: u16 = 6;
/// The terminal BEGIN.
pub const BEGIN: u16 = 7;
/// The terminal FINISH.
pub const FINISH: u16 = 8;
/// The terminal COMMA.
pub const COMMA: u16 = 9;
/// The terminal ASSIGN.
pub const ASSIGN: u16 = 10;
/// The terminal EQUALS.
pub const EQUALS: u16 = 11;
/// The terminal PLUS.
pub const PLUS: u16 = 12;
/// The terminal STAR.
pub const STAR: u16 = 13;
/// The terminal NOT.
pub const NOT: u16 = 14;
/// The terminal NAME.
pub const NAME: u16 = 15;
/// The terminal NUMBER.
pub const NUMBER: u16 = 16;

const PROGRAM_: u16 = 17;

const STATEMENTS_: u16 = 18;

const STATEMENT_: u16 = 19;

const REST_: u16 = 20;

const EXPRESSIONS_: u16 = 21;

const EXPRESSION_: u16 = 22;

const ARGUMENTS_: u16 = 23;

/// The names of the symbols.
pub const NAMES: [&str; 24] = [
    "END",
    "ECHO",
    "IF",
    "ELSE",
    "SEMI",
    "OPEN",
    "CLOSE",
    "BEGIN",
    "FINISH",
    "COMMA",
    "ASSIGN",
    "EQUALS",
    "PLUS",
    "STAR",
    "NOT",
    "NAME",
    "NUMBER",
    "program",
    "statements",
    "statement",
    "rest",
    "expressions",
    "expression",
    "arguments",
];

/// The rules.
pub const RULES: [Rule; 22] = [
    // program: statements
    Rule {
        left: PROGRAM_,
        back: [STATEMENTS_, 0, 0, 0, 0, 0, 0, 0, 0, 0],
        before: 65535,
        behind: 65535,
    },
    // statements:
    Rule {
        left: STATEMENTS_,
        back: [0, 0, 0, 0, 0, 0, 0, 0, 0, 0],
        before: 65535,
        behind: 65535,
    },
    // statements: statements statement
    Rule {
        left: STATEMENTS_,
        back: [STATEMENT_, STATEMENTS_, 0, 0, 0, 0, 0, 0, 0, 0],
        before: 65535,
        behind: 65535,
    },
    // statement: ECHO expressions SEMI
    Rule {
        left: STATEMENT_,
        back: [SEMI, EXPRESSIONS_, ECHO, 0, 0, 0, 0, 0, 0, 0],
        before: 65535,
        behind: 65535,
    },
    // statement: expression SEMI
    Rule {
        left: STATEMENT_,
        back: [SEMI, EXPRESSION_, 0, 0, 0, 0, 0, 0, 0, 0],
        before: 65535,
        behind: 65535,
    },
    // statement: IF OPEN expression CLOSE statement rest
    Rule {
        left: STATEMENT_,
        back: [REST_, STATEMENT_, CLOSE, EXPRESSION_, OPEN, IF, 0, 0, 0, 0],
        before: 65535,
        behind: 65535,
    },
    // statement: BEGIN statements FINISH
    Rule {
        left: STATEMENT_,
        back: [FINISH, STATEMENTS_, BEGIN, 0, 0, 0, 0, 0, 0, 0],
        before: 65535,
        behind: 65535,
    },
    // rest:
    Rule {
        left: REST_,
        back: [0, 0, 0, 0, 0, 0, 0, 0, 0, 0],
        before: 13,
        behind: 65535,
    },
    // rest: ELSE statement
    Rule {
        left: REST_,
        back: [STATEMENT_, ELSE, 0, 0, 0, 0, 0, 0, 0, 0],
        before: 65535,
        behind: 65535,
    },
    // expressions: expression
    Rule {
        left: EXPRESSIONS_,
        back: [EXPRESSION_, 0, 0, 0, 0, 0, 0, 0, 0, 0],
        before: 65535,
        behind: 65535,
    },
    // expressions: expressions COMMA expression
    Rule {
        left: EXPRESSIONS_,
        back: [EXPRESSION_, COMMA, EXPRESSIONS_, 0, 0, 0, 0, 0, 0, 0],
        before: 65535,
        behind: 65535,
    },
    // expression: expression EQUALS expression
    Rule {
        left: EXPRESSION_,
        back: [EXPRESSION_, EQUALS, EXPRESSION_, 0, 0, 0, 0, 0, 0, 0],
        before: 5,
        behind: 5,
    },
    // expression: expression PLUS expression
    Rule {
        left: EXPRESSION_,
        back: [EXPRESSION_, PLUS, EXPRESSION_, 0, 0, 0, 0, 0, 0, 0],
        before: 8,
        behind: 7,
    },
    // expression: expression STAR expression
    Rule {
        left: EXPRESSION_,
        back: [EXPRESSION_, STAR, EXPRESSION_, 0, 0, 0, 0, 0, 0, 0],
        before: 10,
        behind: 9,
    },
    // expression: NOT expression
    Rule {
        left: EXPRESSION_,
        back: [EXPRESSION_, NOT, 0, 0, 0, 0, 0, 0, 0, 0],
        before: 12,
        behind: 65535,
    },
    // expression: NAME ASSIGN expression
    Rule {
        left: EXPRESSION_,
        back: [EXPRESSION_, ASSIGN, NAME, 0, 0, 0, 0, 0, 0, 0],
        before: 3,
        behind: 65535,
    },
    // expression: NAME
    Rule {
        left: EXPRESSION_,
        back: [NAME, 0, 0, 0, 0, 0, 0, 0, 0, 0],
        before: 65535,
        behind: 65535,
    },
    // expression: NUMBER
    Rule {
        left: EXPRESSION_,
        back: [NUMBER, 0, 0, 0, 0, 0, 0, 0, 0, 0],
        before: 65535,
        behind: 65535,
    },
    // expression: NAME OPEN arguments CLOSE
    Rule {
        left: EXPRESSION_,
        back: [CLOSE, ARGUMENTS_, OPEN, NAME, 0, 0, 0, 0, 0, 0],
        before: 65535,
        behind: 65535,
    },
    // expression: OPEN expression CLOSE
    Rule {
        left: EXPRESSION_,
        back: [CLOSE, EXPRESSION_, OPEN, 0, 0, 0, 0, 0, 0, 0],
        before: 65535,
        behind: 65535,
    },
    // arguments:
    Rule {
        left: ARGUMENTS_,
        back: [0, 0, 0, 0, 0, 0, 0, 0, 0, 0],
        before: 65535,
        behind: 65535,
    },
    // arguments: expressions
    Rule {
        left: ARGUMENTS_,
        back: [EXPRESSIONS_, 0, 0, 0, 0, 0, 0, 0, 0, 0],
        before: 65535,
        behind: 65535,
    },
];

/// The powers of the symbols to the left.
pub const LEFTS: [u16; 24] = [
    0, 0, 0, 14, 0, 0, 0, 0, 0, 0, 0, 6, 8, 10, 0, 0, 0, 0, 0, 0, 0, 0, 0, 0,
];

/// The powers of the symbols to the right.
pub const RIGHTS: [u16; 24] = [
    0, 0, 0, 0, 0, 0, 0, 0, 0, 0, 4, 6, 8, 10, 12, 0, 0, 0, 0, 0, 0, 0, 0, 0,
];

/// How many terminals there are, with the end.
pub const TERMINALS: u16 = 17;

/// What a whole input is.
pub const START: u16 = PROGRAM_;
