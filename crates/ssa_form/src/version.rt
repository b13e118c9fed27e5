//! A version of a slot.

use text_base::{Point, Slot};

/// What defines a slot.
#[derive(Clone, Copy, Debug, PartialEq, Eq)]
pub enum Definition {
    /// A point that sets it.
    At(Point),
    /// The entry of a function, by its number.
    Entry { function: u64, slot: Slot },
}

/// A version of a slot.
#[derive(Clone, Copy, Debug, PartialEq, Eq)]
pub enum Version {
    /// One definition.
    Of(Definition),
    /// What the versions that come together at a point join.
    Join { point: Point, slot: Slot },
}
