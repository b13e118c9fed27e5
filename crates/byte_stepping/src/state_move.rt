//! Where a character or a byte leads.

use byte_readers::Emit;
use open_pieces::PagePlace;

/// Where a character or a byte leads the reader of a page, with states of this type.
#[derive(Debug, Drop)]
pub enum StateMove<S> {
    /// The piece goes on in this state.
    Go(S),
    /// The piece ends: the place behind it, and its tokens.
    Done(PagePlace, Emit),
    /// No lawful piece goes on so.
    Fail,
}
