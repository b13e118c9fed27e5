//! Where a character leads.

use byte_readers::Emit;
use open_pieces::{OpenPiece, PagePlace};

/// Where a character leads in a page.
#[derive(Debug, Drop)]
pub enum PageMove {
    /// The piece goes on, and this is open.
    Go(OpenPiece),
    /// The piece ends: the place behind it, and its tokens.
    Done(PagePlace, Emit),
    /// No lawful piece goes on so.
    Fail,
}
