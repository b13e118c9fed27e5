//! The numbers of characters.

ghost use Rattle.std.specs.Prelude.{◌≡◌, ◌≤◌};
ghost use Rattle.std.specs.Char as chars;
ghost use Rattle.xml_text.specs.Characters as characters;

/// The value of a digit, of at most 36 letters and digits; 36 where it is none.
pub fn digit_value(c: char) -> u32
    ensures is { result ≡ chars.digit_value c }
    ensures small { result ≤ 36 }
{
    let code = u32::from(c);
    match c {
        '0'..='9' => code - 48,
        'A'..='Z' => code - 55,
        'a'..='z' => code - 87,
        _ => 36,
    }
}

/// Whether this is the number of a character of XML (XML 1.0, 2.2).
pub fn is_character_code(code: u32) -> bool
    ensures { result ≡ characters.is_character code }
{
    matches!(
        code,
        9 | 10 | 13 | 0x20..=0xD7FF | 0xE000..=0xFFFD | 0x10000..=0x10FFFF
    )
}
