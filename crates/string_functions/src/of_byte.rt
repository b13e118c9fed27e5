//! What the functions do with one byte, and whether bytes are UTF-8.

ghost use Rattle.std.specs.Prelude.{◌≡◌, ◌∷◌, [], ◌<◌, ◌↔◌, IsTrue, IsUtf8, MatchOption};
ghost use Rattle.std.specs.Char.{to_ascii_lowercase, to_ascii_uppercase};
ghost use Rattle.string_functions.specs.Html.{html_of_byte};
ghost use Rattle.string_functions.specs.Trim.{is_stripped};
ghost use Rattle.string_functions.specs.Breaks.{is_line_end};
ghost use Rattle.string_functions.specs.Url.{is_kept_in_url, hex_digit};

use std::str::from_utf8;

/// The ASCII letter in lower case; any other byte stays.
pub fn lower_byte(byte: u8) -> u8
    ensures { result ≡ to_ascii_lowercase byte }
{
    byte.to_ascii_lowercase()
}

/// The ASCII letter in upper case; any other byte stays.
pub fn upper_byte(byte: u8) -> u8
    ensures { result ≡ to_ascii_uppercase byte }
{
    byte.to_ascii_uppercase()
}

/// Whether `trim` strips the byte: space, tab, LF, CR, NUL or vertical tab.
pub fn is_stripped_byte(byte: u8) -> bool
    ensures { result ≡ is_stripped byte }
{
    matches!(byte, b' ' | b'\t' | b'\n' | b'\r' | 0 | 0x0B)
}

/// Whether the byte is LF or CR.
pub fn is_line_end_byte(byte: u8) -> bool
    ensures { result ≡ is_line_end byte }
{
    byte == b'\n' || byte == b'\r'
}

/// The reference that `htmlspecialchars` writes for the byte; None exactly where it writes the
/// byte itself.
pub fn html_reference(byte: u8) -> Option<&'static str>
    ensures { MatchOption result (html_of_byte byte ≡ byte ∷ [])
        (λ reference. html_of_byte byte ≡ reference.now) }
{
    match byte {
        b'&' => Some("&amp;"),
        b'<' => Some("&lt;"),
        b'>' => Some("&gt;"),
        b'"' => Some("&quot;"),
        b'\'' => Some("&#039;"),
        _ => None,
    }
}

/// Whether `urlencode` writes the byte itself: an ASCII letter or digit, `-`, `_` or `.`.
pub fn is_kept_byte(byte: u8) -> bool
    ensures { result ≡ is_kept_in_url byte }
{
    byte.is_ascii_alphanumeric() || byte == b'-' || byte == b'_' || byte == b'.'
}

/// The upper case hexadecimal digit of a number below 16.
pub fn hex_digit_of(number: u8) -> u8
    requires { number < 16 }
    ensures { result ≡ hex_digit number }
{
    if number < 10 {
        b'0' + number
    } else {
        b'A' - 10 + number
    }
}

/// Whether the bytes are UTF-8 (RFC 3629).
pub fn is_utf8(text: &[u8]) -> bool
    ensures { IsTrue result ↔ IsUtf8 text.now }
{
    from_utf8(text).is_ok()
}
