//! Names (XML 1.0, 2.3), in ASCII.

ghost use Rattle.std.specs.Prelude.{◌≡◌};
ghost use Rattle.std.specs.List.{list_all};
ghost use Rattle.xml_text.specs.Names as spec;

/// Whether a name may begin with the byte: a letter, `_` or `:`.
pub fn begins_name(byte: u8) -> bool
    ensures { result ≡ spec.begins_name byte }
{
    byte.is_ascii_alphabetic() || byte == b'_' || byte == b':'
}

/// Whether the byte may stand in a name: a letter, `_`, `:`, a digit, `.` or `-`.
pub fn in_name(byte: u8) -> bool
    ensures { result ≡ spec.in_name byte }
{
    begins_name(byte) || byte.is_ascii_digit() || byte == b'.' || byte == b'-'
}

/// Whether the byte may stand in a public identifier (PubidChar).
pub fn in_public_identifier(byte: u8) -> bool
    ensures { result ≡ spec.in_public_identifier byte }
{
    let is_sign = b"-'()+,./:=?;!*#@$_%".contains(&byte);
    byte == b'\n' || byte == b'\r' || byte == b' ' || byte.is_ascii_alphanumeric() || is_sign
}

/// Whether the bytes are a name (Name).
pub fn is_name(bytes: &[u8]) -> bool
    ensures { result ≡ spec.is_name bytes.now }
{
    match bytes {
        [] => false,
        [first, rest @ ..] => begins_name(*first) && are_in_name(rest),
    }
}

fn are_in_name(bytes: &[u8]) -> bool
    ensures { result ≡ list_all spec.in_name bytes.now }
{
    bytes.iter().all(|byte| in_name(*byte))
}
