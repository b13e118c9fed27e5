//! The limits of what is read.

/// The most bytes of a text in which all references are replaced, with those of the text
/// declarations of its entities, and the most references that are replaced in it.
pub const REPLACED_LIMIT: u64 = 4_194_304;

/// The most values of an attribute that is a choice.
pub const VALUE_LIMIT: u64 = 1_024;
