//! What a document type definition says of elements and attributes.

use text_base::{Bytes, Elem};

/// An element type declaration with the attribute list of the element (XML 1.0, 3.2 and 3.3).
#[derive(Debug, Drop)]
pub struct ElementRule {
    /// The name in the tags.
    pub name: Bytes,
    /// What may stand between the tags.
    pub content: Content,
    /// The attributes that its tags may have.
    pub attributes: Vec<AttrRule>,
}

/// What may stand in an element (XML 1.0, 3.2).
#[derive(Debug, Drop)]
pub enum Content {
    /// `EMPTY`: nothing.
    Empty,
    /// `ANY`: text and any declared elements.
    Any,
    /// `(#PCDATA | a | b)*`: text and these elements.
    Mixed(Vec<Elem>),
    /// Elements in an order that the particle matches, and white space.
    Children(Particle),
}

/// A content particle (XML 1.0, 3.2.1).
#[derive(Debug, Drop)]
pub enum Particle {
    /// One element.
    One(Elem),
    /// `(a, b, c)`: each in turn.
    Seq(Vec<Particle>),
    /// `(a | b | c)`: one of them.
    Alt(Vec<Particle>),
    /// `a?`: once or not at all.
    Opt(Box<Particle>),
    /// `a*`: any number of times.
    Star(Box<Particle>),
    /// `a+`: at least once.
    Plus(Box<Particle>),
}

/// The declaration of one attribute (XML 1.0, 3.3).
#[derive(Debug, Drop)]
pub struct AttrRule {
    /// The name of the attribute.
    pub name: Bytes,
    /// Which values it may have.
    pub kind: AttrKind,
    /// Whether it has to stand, and with which value.
    pub need: Need,
}

/// The type of an attribute (XML 1.0, 3.3.1).
#[derive(Debug, Drop)]
pub enum AttrKind {
    /// `CDATA`: any text.
    Cdata,
    /// `ID`: a name.
    Id,
    /// `IDREF`: a name.
    Idref,
    /// `IDREFS`: names.
    Idrefs,
    /// `NMTOKEN`: a name token.
    Nmtoken,
    /// `NMTOKENS`: name tokens.
    Nmtokens,
    /// `(a | b)`: one of these name tokens.
    Choice(Vec<Bytes>),
}

/// The default of an attribute (XML 1.0, 3.3.2).
#[derive(Debug, Drop)]
pub enum Need {
    /// `#IMPLIED`: it may be left out.
    Implied,
    /// `#REQUIRED`: it has to stand.
    Required,
    /// A default value: it may be left out.
    Default,
    /// `#FIXED`: it may be left out, and has this value.
    Fixed(Bytes),
}

/// What a page has to say of its document type.
#[derive(Clone, Copy, Debug, PartialEq, Eq)]
pub enum DoctypeRule {
    /// The declaration of XHTML 1.0 Strict has to stand (XHTML 1.0, 3.1.1).
    Strict,
    /// A declaration may be left out.
    Free,
}
