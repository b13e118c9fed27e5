//! What is put out at once.

use text_base::PageToken;

/// The page tokens that are put out at once: at most two.
#[derive(Clone, Copy, Debug, PartialEq, Eq, Hash)]
pub enum Emit {
    /// None.
    Nothing,
    /// This one.
    One(PageToken),
    /// These, in turn.
    Two(PageToken, PageToken),
}
