//! An option that a file gives.

/// An option that a file gives, and its value as the words have it.
#[derive(Debug, PartialEq, Eq, Drop)]
pub struct Setting {
    pub(crate) name: String,
    pub(crate) value: String,
}

/// What the value of a member is.
#[derive(Clone, Copy, Debug, PartialEq, Eq)]
pub(crate) enum Kind {
    /// The name of a file, a folder or a document type.
    Name,
    /// A number from 1 to 99,999,999.
    Number,
}
