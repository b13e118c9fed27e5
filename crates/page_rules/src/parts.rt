//! What a piece is made of: slices of the page's characters.

/// A text in quotes.
#[derive(Clone, Copy)]
pub struct Literal<'c> {
    /// `"` or `'`.
    pub quote: char,
    /// What stands between the quotes.
    pub text: &'c [char],
}

/// An attribute in a tag (XML 1.0, 3.1).
#[derive(Clone, Copy)]
pub struct Attribute<'c> {
    /// The white space before it.
    pub space: &'c [char],
    /// Its name.
    pub name: &'c [char],
    /// The white space before `=`.
    pub before_equals: &'c [char],
    /// The white space behind `=`.
    pub after_equals: &'c [char],
    /// Its value.
    pub value: Literal<'c>,
}

/// The inside of a start tag or of the tag of an empty element (XML 1.0, 3.1).
#[derive(Drop)]
pub struct Tag<'c> {
    /// Its name.
    pub name: &'c [char],
    /// Its attributes.
    pub attributes: Vec<Attribute<'c>>,
    /// The white space before its end.
    pub space: &'c [char],
}

/// The XML declaration (XML 1.0, 2.8).
#[derive(Drop)]
pub struct Declaration<'c> {
    /// The version, and what follows it.
    pub attributes: Vec<Attribute<'c>>,
    /// The white space before its end.
    pub space: &'c [char],
}

/// An external identifier (XML 1.0, 4.2.2).
#[derive(Clone, Copy)]
pub enum Identifier<'c> {
    /// None.
    None,
    /// White space, `SYSTEM`, white space and a literal.
    System(&'c [char], &'c [char], Literal<'c>),
    /// White space, `PUBLIC`, white space, a literal, white space and a literal.
    Public(&'c [char], &'c [char], Literal<'c>, &'c [char], Literal<'c>),
}

/// The document type declaration (XML 1.0, 2.8).
#[derive(Clone, Copy)]
pub struct Doctype<'c> {
    /// The white space before `html`.
    pub space: &'c [char],
    /// What stands behind `html`.
    pub identifier: Identifier<'c>,
    /// The white space before its end.
    pub end_space: &'c [char],
}

/// A reference (XML 1.0, 4.1).
#[derive(Clone, Copy)]
pub enum Reference<'c> {
    /// The digits behind `&#`.
    Decimal(&'c [char]),
    /// The digits behind `&#x`.
    Hexadecimal(&'c [char]),
    /// The name of an entity.
    Entity(&'c [char]),
}

/// A piece of a page.
#[derive(Drop)]
pub enum Piece<'c> {
    /// The byte order mark.
    Mark,
    /// The XML declaration.
    Declaration(Declaration<'c>),
    /// The document type declaration.
    Doctype(Doctype<'c>),
    /// A start tag.
    Start(Tag<'c>),
    /// The tag of an empty element.
    Empty(Tag<'c>),
    /// The name and the white space of an end tag.
    End(&'c [char], &'c [char]),
    /// A character of text.
    Character(char),
    /// A reference in text.
    Reference(Reference<'c>),
    /// The text of a CDATA section.
    Section(&'c [char]),
    /// The text of a comment.
    Comment(&'c [char]),
    /// The target of an instruction, and what stands behind it.
    Instruction(&'c [char], &'c [char]),
}

/// Where a piece stands.
#[derive(Clone, Copy, Debug)]
pub enum Place {
    /// At the beginning of the page.
    Beginning,
    /// Behind the byte order mark alone.
    BehindMark,
    /// Behind other pieces, of which so many characters `]` are the last, two at most.
    Behind(u8),
}
