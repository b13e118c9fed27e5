//! Where a character leads.

use open_pieces::OpenDoctype;

/// Where a character leads in a document type declaration.
#[derive(Debug, Drop)]
pub enum DoctypeTurn {
    /// This is open.
    On(OpenDoctype),
    /// The declaration ends.
    Out,
    /// No declaration goes on so.
    Stop,
}
