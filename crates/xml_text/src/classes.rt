//! Classes of characters.

ghost use Rattle.std.specs.Prelude.{◌≡◌};
ghost use Rattle.xml_text.specs.Characters as spec;

/// Whether the byte is white space (XML 1.0, 2.3, S): a tab, a line feed, a carriage return or a
/// space.
pub fn is_blank(byte: u8) -> bool
    ensures { result ≡ spec.is_blank byte }
{
    byte == b'\t' || byte == b'\n' || byte == b'\r' || byte == b' '
}

/// Whether a character of Unicode is one of XML (XML 1.0, 2.2, Char).
pub fn is_character(c: char) -> bool
    ensures { result ≡ spec.is_character c }
{
    let code = c as u32;
    matches!(
        code,
        9 | 10 | 13 | 0x20..=0xD7FF | 0xE000..=0xFFFD | 0x10000..=0x10FFFF
    )
}
