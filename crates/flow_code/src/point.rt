//! Points.

use crate::source::{KeyRef, Source};
use text_base::{Bytes, Point, Slot};

/// A point of a function.
#[derive(Debug, Drop)]
pub enum FlowPoint {
    /// Sets a slot.
    Set {
        slot: Slot,
        source: Source,
        next: Point,
    },
    /// Calls a function of the program by its number, with the values of these slots as its
    /// parameters, and sets a slot to its result.
    Call {
        slot: Slot,
        function: u64,
        args: Vec<Slot>,
        next: Point,
    },
    /// Prints bytes.
    Print {
        bytes: Bytes,
        next: Point,
    },
    /// Prints the text form of a slot's value.
    Echo {
        slot: Slot,
        next: Point,
    },
    /// Goes on at `yes` where the slot's value is true, and else at `no`.
    Branch {
        slot: Slot,
        yes: Point,
        no: Point,
    },
    /// Goes on elsewhere.
    Jump {
        next: Point,
    },
    /// Copies the value of `from` into the slot, for a walk over its members.
    EachBegin {
        slot: Slot,
        from: Slot,
        next: Point,
    },
    /// Moves the walk of the slot on to its next member, or leaves it.
    EachNext {
        slot: Slot,
        more: Point,
        done: Point,
    },
    /// Sets a slot to the key where the walk of `from` stands.
    KeyOf {
        slot: Slot,
        from: Slot,
        next: Point,
    },
    /// Sets a slot to the value where the walk of `from` stands.
    ValueOf {
        slot: Slot,
        from: Slot,
        next: Point,
    },
    /// Ends the function with the value of a slot.
    Return {
        slot: Slot,
    },
    /// Ends the run, and prints the text in a slot before, where there is one.
    Quit {
        slot: Option<Slot>,
    },
}
