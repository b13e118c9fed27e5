//! What is found of short pages.

use crate::showing_pages::ShownPage;

/// What is found of the pages of at most so many bytes.
#[derive(Drop)]
pub(crate) enum Below {
    /// Each of them is good.
    Good,
    /// One is not, of which this is shown, and each that is shorter is.
    Bad(ShownPage),
    /// A limit was passed.
    Open,
}
