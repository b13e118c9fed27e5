//! What a slot is set to.

use builtin_meaning::Builtin;
use op_system::Op;
use php_syntax::tree::{ArithSign, CompareSign, SuperName};
use php_values::Value;
use text_base::{Bytes, Slot};

/// A key of a member: an integer or a text that stands in the script, or the value of a slot.
#[derive(Debug, PartialEq, Eq, Drop)]
pub enum KeyRef {
    /// An integer literal.
    Int(i64),
    /// A text literal.
    Text(Bytes),
    /// The key that the value of the slot stands for.
    Read(Slot),
}

/// An operation whose result is a number or a truth value.
#[derive(Clone, Copy, Debug, PartialEq, Eq)]
pub enum Work {
    /// `+ - * %` of two values.
    Arith(ArithSign),
    /// `== != === !== < <= > >=` of two values.
    Compare(CompareSign),
    /// `-` before a value.
    Neg,
    /// `++` of a value.
    Up,
    /// `--` of a value.
    Down,
    /// `!` before a value.
    Not,
    /// `isset` of values: whether none of them is null.
    Isset,
    /// `empty` of a value: whether it is false.
    Empty,
    /// Whether a value is not null.
    NotNull,
    /// The truth of a value.
    AsTruth,
    /// A function of PHP.
    Builtin(Builtin),
}

/// What a slot is set to. Where a function of PHP is named, `args` has the slots of all its
/// arguments, and the other fields say how the analysis takes the call.
#[derive(Debug, Drop)]
pub enum Source {
    /// A literal, which is no array.
    Lit(Value),
    /// The value of a slot.
    Copy(Slot),
    /// An array of the request.
    Super(SuperName),
    /// The member of a value under a key.
    MemberOf(Slot, KeyRef),
    /// An array literal: for each item its key, where one is written, and its value.
    ArrayOf(Vec<(Option<KeyRef>, Slot)>),
    /// A value with another one written in at the end of a path of keys, where None is the key that
    /// comes next.
    PutIn(Slot, Vec<Option<KeyRef>>, Slot),
    /// The text forms of values, joined.
    Concat(Vec<Slot>),
    /// `str_repeat`: copies of the text `from`.
    Repeat {
        from: Slot,
        builtin: Builtin,
        args: Vec<Slot>,
    },
    /// `implode`: the members of `from` with `sep` between them.
    Implode {
        sep: Slot,
        from: Slot,
        builtin: Builtin,
        args: Vec<Slot>,
    },
    /// `explode`: an array of outputs of the operation on `from`.
    Explode {
        op: Op,
        from: Slot,
        builtin: Builtin,
        args: Vec<Slot>,
    },
    /// A function from a text to a text: an output of the operation on `from`.
    Apply {
        op: Op,
        from: Slot,
        builtin: Builtin,
        args: Vec<Slot>,
    },
    /// An integer.
    Number {
        work: Work,
        args: Vec<Slot>,
    },
    /// A truth value.
    Truth {
        work: Work,
        args: Vec<Slot>,
    },
}
