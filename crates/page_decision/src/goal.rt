//! Goals.

/// What each page is asked for.
#[derive(Clone, Copy, Debug, PartialEq, Eq)]
pub enum Goal {
    /// To be valid by a document type definition.
    Valid,
    /// To have tags that match as brackets, and no bytes that are no markup.
    Nested,
}
