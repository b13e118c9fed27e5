//! The reasons.

use text_base::Elem;

/// Bytes of a page: from the first of them up to the first that is none of them.
#[derive(Clone, Copy, Debug, PartialEq, Eq)]
pub struct Span {
    /// The place of the first byte.
    pub from: usize,
    /// The place behind the last byte.
    pub to: usize,
}

/// Which external identifier a document type declaration has (XML 1.0, 4.2.2).
#[derive(Clone, Copy, Debug, PartialEq, Eq)]
pub enum IdentifierForm {
    /// None, as in HTML 5.
    Nothing,
    /// A system identifier alone.
    System,
    /// A public one and a system one.
    Public,
}

/// What is wrong with an attribute of a tag (XML 1.0, 3.1 and 3.3).
#[derive(Clone, Copy, Debug, PartialEq, Eq)]
pub enum AttributeReason {
    /// No `=` stands behind its name.
    NoValue,
    /// No quote stands behind `=`.
    NoQuotes,
    /// The quote before its value does not stand behind it.
    NotClosed,
    /// No white space stands before it.
    NoSpace,
    /// Its value has a character that XML does not have.
    NotCharacter,
    /// Its value has `<`.
    LessThan,
    /// An `&` in its value begins no reference.
    NotReference,
    /// It is not declared for the element.
    NotDeclared,
    /// An attribute of its name stands before it.
    Twice,
    /// Its value refers to an entity that is not declared.
    EntityNotDeclared,
    /// Its value is not of its declared type, or is not in the list of values.
    NotOfType,
    /// Its value is not the fixed one.
    NotFixed,
}

/// Why no lawful piece begins at a place of a page (XML 1.0, 2 to 4).
#[derive(Clone, Copy, Debug, PartialEq, Eq)]
pub enum PieceReason {
    /// No finer reason is known.
    Other,
    /// XML does not have the character at this byte.
    NotCharacter {
        at: usize,
    },
    /// `>` stands behind `]]` in text.
    SectionEnd,
    /// `<` begins no tag, comment, section, instruction or document type declaration.
    NotMarkup,
    /// `&` begins no reference.
    NotReference,
    /// The entity of this name is not declared.
    EntityNotDeclared {
        name: Span,
    },
    /// A comment has no end.
    CommentNotClosed,
    /// `--` at this byte stands in a comment and does not end it.
    DoubleHyphen {
        at: usize,
    },
    /// A CDATA section has no end.
    SectionNotClosed,
    /// An instruction has no end.
    InstructionNotClosed,
    /// The target of an instruction is `xml` with capital letters.
    TargetReserved,
    /// Neither white space nor the end stands behind the target of an instruction.
    TargetNotApart,
    /// An XML declaration stands behind the beginning of the page.
    DeclarationLate,
    /// The XML declaration is not lawful.
    DeclarationNotLawful,
    /// The document type declaration is none of a root `html` without an internal subset.
    DoctypeNotLawful,
    /// The document type is another one than the definition asks for.
    OtherDoctype {
        identifier: IdentifierForm,
    },
    /// The element of this name is not declared; `lower` is the one of its name in small letters.
    ElementNotDeclared {
        name: Span,
        lower: Option<Elem>,
    },
    /// A tag has neither an attribute nor its end at this byte.
    TagNotClosed {
        at: usize,
    },
    /// What is wrong with the attribute of this name in a tag of the element.
    Attribute {
        element: Elem,
        name: Span,
        reason: AttributeReason,
    },
    /// The attribute of this number, among those declared for the element, has to stand in its tag.
    AttributeMissing {
        element: Elem,
        attribute: usize,
    },
}
