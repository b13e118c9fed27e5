//! Names of sets.

ghost use Rattle.loose_sets.specs.Exactness.{exact_name};

use text_base::Exact;

/// What is said of a value.
#[derive(Clone, Copy, Debug, PartialEq, Eq, Hash)]
pub enum Half {
    /// Its text forms, where it is no array.
    Text,
    /// Whether it may be an array.
    Array,
}

/// Of which value it is said.
#[derive(Clone, Copy, Debug, PartialEq, Eq, Hash)]
pub enum Aspect {
    /// The value itself.
    Own(Half),
    /// Its member under a key that is told apart, by the number of the key.
    Member(u64, Half),
    /// Its members under other keys, and all that stand deeper.
    Others(Half),
    /// Its keys as texts, at any depth.
    Keys,
}

/// A version of a slot, by numbers alone.
#[derive(Clone, Copy, Debug, PartialEq, Eq, Hash)]
pub enum SetVersion {
    /// What a point defines.
    Point(u64),
    /// What the entry of a function defines, by the function and the slot.
    Entry(u64, u64),
    /// What the versions that come together at a point join, by the point and the slot.
    Join(u64, u64),
}

/// How a function is left.
#[derive(Clone, Copy, Debug, PartialEq, Eq, Hash)]
pub enum Leaving {
    /// By a `return`, or at its end.
    Return,
    /// By an end of the run.
    Exit,
}

/// The name of a set.
#[derive(Clone, Copy, Debug, PartialEq, Eq, Hash)]
pub enum SetName {
    /// Of the value of a version.
    Value(Aspect, SetVersion),
    /// Of all members of the value of a version, at any depth.
    Members(Half, SetVersion),
    /// What `echo` prints of the value of a version.
    Shown(SetVersion),
    /// Of the results of a function, by its number.
    Result(Aspect, u64),
    /// The inputs of the operation at a point.
    Input(u64),
    /// The outputs of the operation at a point.
    Output(u64),
    /// At a point that joins values: the texts from the value of this place on.
    Joined(u64, u64),
    /// At a point that joins the members of an array: a member.
    Piece(u64),
    /// A separator with a member.
    FurtherPiece(u64),
    /// Any number of these.
    FurtherPieces(u64),
    /// What is printed from a point on until its function is left so.
    Out(u64, Leaving),
}

impl Exact for SetName {
    ghost exact = { exact_name };
}
