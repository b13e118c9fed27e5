//! Where a character leads.

use open_pieces::{NameList, OpenAttribute};

/// Where a character leads among attributes.
#[derive(Debug, Drop)]
pub enum AttributeMove {
    /// This is open.
    Stays(OpenAttribute),
    /// An attribute ends, and these names stand.
    EndsWith(NameList),
    /// The character is none of an attribute.
    Leaves,
    /// No attribute goes on so.
    Stops,
}
