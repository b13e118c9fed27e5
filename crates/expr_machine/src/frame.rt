//! Where the machine is in an expression, and what it has begun.

use php_syntax::tree::UpdateSign;
use script_grammar::operator::{Level, Operator, Prefix};
use text_base::Bytes;

/// The brackets round the items of an array.
#[derive(Clone, Copy, Debug, PartialEq, Eq)]
pub enum Brackets {
    /// `array(` and `)`
    Round,
    /// `[` and `]`
    Square,
}

/// Where the machine is.
#[derive(Debug, Drop)]
pub enum Focus {
    /// An expression or an operand begins here.
    Begin,
    /// A variable was read with so many keys, of which one is left out where `gap`; it may be a
    /// target.
    Place { name: Bytes, keys: usize, gap: bool },
    /// A value was read that subscripts may follow.
    Subscripted,
    /// A value was read that is an operand of the operators before it.
    Unary,
    /// A value was read that is an operand of this level.
    Operand(Level),
    /// A whole chain of `||` was read.
    Chain,
    /// A whole chain of `??` was read.
    Coalesced,
    /// A whole expression was read.
    Whole,
}

/// What was begun and waits for a value.
#[derive(Debug, Drop)]
pub enum Frame {
    /// An operator before its operand.
    Prefix(Prefix),
    /// An operator of a level that leans left, behind its left operand.
    Operator(Level, Operator),
    /// `.` behind so many operands.
    Join(usize),
    /// `??` behind its left operand.
    Coalesce,
    /// `?:` behind its condition.
    ShortChoice,
    /// `:` behind a condition and the value where it is true.
    FullChoice,
    /// `?` behind a condition.
    Middle,
    /// `=` behind a target: the variable, and how many keys it has.
    Assign {
        name: Bytes,
        keys: usize,
    },
    /// An assignment that reads its target first.
    Update {
        sign: UpdateSign,
        name: Bytes,
        keys: usize,
    },
    /// `(`
    Parens,
    /// `[` behind a value.
    Subscript,
    /// `[` behind a variable and so many keys, of which one is left out where `gap`.
    Key {
        name: Bytes,
        keys: usize,
        gap: bool,
    },
    /// `isset(` and so many operands.
    Isset(usize),
    /// `empty(`
    Empty,
    /// A function's name, `(` and so many arguments.
    Argument {
        name: Bytes,
        count: usize,
    },
    /// The bracket of an array, and so many items.
    Item {
        brackets: Brackets,
        count: usize,
    },
    /// The same, and the key of the next item and `=>`.
    KeyedItem {
        brackets: Brackets,
        count: usize,
    },
}
