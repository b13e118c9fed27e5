//! The classes of bytes of ASCII that coarse pieces are made of.

ghost use Rattle.std.specs.Prelude.{◌≡◌};
ghost use Rattle.broken_readers.specs.Classes as spec;

use form_maker::ByteTest;
use xml_text::{in_name, is_blank};

/// Which bytes of ASCII there may be.
#[derive(Clone, Copy)]
pub enum PieceClass {
    /// Outside markup.
    Text,
    /// In a reference.
    Reference,
    /// In a tag, outside quotes.
    Tag,
    /// In an end tag, and outside quotes in a document type declaration.
    EndTag,
    /// In a value between such quotes.
    Value(u8),
    /// Any but this one.
    But(u8),
    /// Any but this one and `>`.
    Neither(u8),
}

impl ByteTest for PieceClass {
    ghost passing = { spec.in_class };

    fn passes(&self, byte: u8) -> bool {
        match *self {
            PieceClass::Text => !(byte == b'<' || byte == b'&'),
            PieceClass::Reference => in_name(byte) || byte == b'#',
            PieceClass::Tag => in_name(byte) || is_blank(byte) || (byte == b'=' || byte == b'/'),
            PieceClass::EndTag => in_name(byte) || is_blank(byte),
            PieceClass::Value(quote) => !(byte == b'<' || byte == quote),
            PieceClass::But(other) => byte != other,
            PieceClass::Neither(other) => !(byte == other || byte == b'>'),
        }
    }
}
