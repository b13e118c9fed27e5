//! The classes of bytes of ASCII that pieces are made of.

ghost use Rattle.std.specs.Prelude.{◌≡◌};
ghost use Rattle.std.specs.Char as chars;
ghost use Rattle.xml_text.specs.Characters as characters;
ghost use Rattle.page_forms.specs.Remarks as remarks;
ghost use Rattle.form_maker.specs.Classes as spec;

use crate::test::ByteTest;
use page_rules::digit_value;
use xml_text::{begins_name, in_name, in_public_identifier, is_blank, is_character};

/// How digits write numbers.
#[derive(Clone, Copy)]
pub enum Base {
    Decimal,
    Hexadecimal,
}

/// Which digits there may be, by their values.
#[derive(Clone, Copy)]
pub enum DigitTest {
    /// Those of the value of this one.
    EqualTo(u8),
    /// Those of a higher value.
    Above(u8),
    /// Those of a lower value.
    Below(u8),
    /// Those of a value between these two.
    Between(u8, u8),
}

/// Which characters there may be.
#[derive(Clone, Copy)]
pub enum CharacterTest {
    /// Any but this one.
    OtherThan(u8),
    /// Any but this one and `>`.
    Neither(u8),
    /// What stands for itself between such quotes.
    InValue(u8),
    /// Text at the beginning of a page.
    TextAtBeginning,
    /// Text behind the byte order mark alone.
    TextBehindMark,
    /// Text behind so many characters `]`.
    TextBehind(u8),
}

/// Which bytes of ASCII there may be.
#[derive(Clone, Copy)]
pub enum ByteClass {
    /// White space.
    Blank,
    /// This letter, in either case.
    Letter(u8),
    /// What a name may begin with.
    NameStart,
    /// The same, but for this letter.
    NameStartBut(u8),
    /// What a name may hold.
    InName,
    /// The same, but for this letter.
    InNameBut(u8),
    /// What a public identifier may hold, but for this one.
    PublicBut(u8),
    /// Digits.
    Digit(Base, DigitTest),
    /// Characters of XML.
    Character(CharacterTest),
}

impl ByteTest for Base {
    ghost passing = { spec.is_digit };

    fn passes(&self, byte: u8) -> bool {
        match *self {
            Base::Decimal => byte.is_ascii_digit(),
            Base::Hexadecimal => byte.is_ascii_hexdigit(),
        }
    }
}

/// The value of a digit.
pub(crate) fn value(byte: u8) -> u32
    ensures { result ≡ chars.digit_value byte }
{
    digit_value(char::from(byte))
}

impl DigitTest {
    /// Whether a digit passes.
    fn passes(self, byte: u8) -> bool
        ensures { result ≡ spec.digit_test self byte }
    {
        match self {
            DigitTest::EqualTo(digit) => value(byte) == value(digit),
            DigitTest::Above(digit) => value(digit) < value(byte),
            DigitTest::Below(digit) => value(byte) < value(digit),
            DigitTest::Between(low, high) => {
                value(low) < value(byte) && value(byte) < value(high)
            }
        }
    }
}

impl CharacterTest {
    /// Whether a character passes.
    fn passes(self, byte: u8) -> bool
        ensures { result ≡ spec.character_test self byte }
    {
        match self {
            CharacterTest::OtherThan(c) => byte != c,
            CharacterTest::Neither(c) => !(byte == c || byte == b'>'),
            CharacterTest::InValue(quote) => !(byte == b'<' || byte == b'&' || byte == quote),
            CharacterTest::TextAtBeginning | CharacterTest::TextBehindMark => is_text(byte),
            CharacterTest::TextBehind(count) => is_text(byte) && !(byte == b'>' && count == 2),
        }
    }
}

/// Whether a character of ASCII is text: no `<`, no `&`, no `]` and no white space.
fn is_text(byte: u8) -> bool
    ensures { result ≡ spec.is_text byte }
{
    !(byte == b'<' || byte == b'&' || (byte == b']' || is_blank(byte)))
}

/// Whether a byte is this letter, in either case.
fn is_letter(letter: u8, byte: u8) -> bool
    ensures { result ≡ remarks.is_letter letter byte }
{
    byte.to_ascii_lowercase() == letter.to_ascii_lowercase()
}

/// Whether a byte is a character of XML.
fn is_character_byte(byte: u8) -> bool
    ensures { result ≡ characters.is_character byte }
{
    is_character(char::from(byte))
}

impl ByteTest for ByteClass {
    ghost passing = { spec.in_class };

    fn passes(&self, byte: u8) -> bool {
        match *self {
            ByteClass::Blank => is_blank(byte),
            ByteClass::Letter(letter) => is_letter(letter, byte),
            ByteClass::NameStart => begins_name(byte),
            ByteClass::NameStartBut(letter) => begins_name(byte) && !is_letter(letter, byte),
            ByteClass::InName => in_name(byte),
            ByteClass::InNameBut(letter) => in_name(byte) && !is_letter(letter, byte),
            ByteClass::PublicBut(quote) => in_public_identifier(byte) && byte != quote,
            ByteClass::Digit(base, test) => base.passes(byte) && test.passes(byte),
            ByteClass::Character(test) => is_character_byte(byte) && test.passes(byte),
        }
    }
}
