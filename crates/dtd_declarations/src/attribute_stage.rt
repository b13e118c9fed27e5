//! The places of an attribute list.

use dtd_model::{AttrKind, AttrRule};
use text_base::Bytes;

/// A place in what stands behind the name of the element in an attribute list.
#[derive(Debug, Drop)]
pub enum Place {
    /// Behind the name of the element or a whole attribute.
    Between,
    /// Behind the white space there.
    AtName,
    /// Behind the name of an attribute.
    BehindName(Bytes),
    /// Behind the white space there.
    AtKind(Bytes),
    /// In an enumeration, where a token is due.
    AtToken(Bytes, Vec<Bytes>),
    /// In an enumeration, behind a token.
    BehindToken(Bytes, Vec<Bytes>),
    /// Behind the type.
    BehindKind(Bytes, AttrKind),
    /// Behind the white space there.
    AtDefault(Bytes, AttrKind),
    /// Behind `#` there.
    AtWord(Bytes, AttrKind),
    /// Behind `#FIXED`.
    BehindFixed(Bytes, AttrKind),
    /// Behind the white space there.
    AtFixed(Bytes, AttrKind),
}

/// The attributes so far, and the place.
#[derive(Debug, Drop)]
pub struct Reading {
    pub attributes: Vec<AttrRule>,
    pub place: Place,
}
