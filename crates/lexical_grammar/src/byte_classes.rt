//! The classes of the bytes of a script, as the lexical grammar of the script language has them.

ghost use Rattle.std.specs.Prelude.{◌≡◌};
ghost use Rattle.lexical_grammar.specs.Characters as spec;

/// A decimal digit.
pub fn is_digit(byte: u8) -> bool
    ensures { result ≡ spec.is_digit byte }
{
    48 <= byte && byte <= 57
}

/// An ASCII letter.
pub fn is_letter(byte: u8) -> bool
    ensures { result ≡ spec.is_letter byte }
{
    (65 <= byte && byte <= 90) || (97 <= byte && byte <= 122)
}

/// A letter or `_`, with which a name may begin.
pub fn is_name_start(byte: u8) -> bool
    ensures { result ≡ spec.is_name_start byte }
{
    is_letter(byte) || byte == 95
}

/// A byte that may stand in a name: a letter, `_` or a digit.
pub fn is_name_byte(byte: u8) -> bool
    ensures { result ≡ spec.is_name_byte byte }
{
    is_name_start(byte) || is_digit(byte)
}

/// A space or a tab.
pub fn is_gap(byte: u8) -> bool
    ensures { result ≡ spec.is_gap byte }
{
    byte == 32 || byte == 9
}

/// LF or CR.
pub fn is_line_end(byte: u8) -> bool
    ensures { result ≡ spec.is_line_end byte }
{
    byte == 10 || byte == 13
}

/// A space, a tab, LF or CR.
pub fn is_blank(byte: u8) -> bool
    ensures { result ≡ spec.is_blank byte }
{
    is_gap(byte) || is_line_end(byte)
}

/// A byte beyond ASCII.
pub fn is_high(byte: u8) -> bool
    ensures { result ≡ spec.is_high byte }
{
    128 <= byte
}

/// The byte without the case of an ASCII letter.
pub fn lower(byte: u8) -> u8
    ensures { result ≡ spec.lower byte }
{
    if 65 <= byte && byte <= 90 {
        byte + 32
    } else {
        byte
    }
}
