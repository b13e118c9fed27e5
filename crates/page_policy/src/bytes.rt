//! Single bytes and ranges of a pattern file.

ghost use Rattle.std.specs.Prelude.{◌≡◌, ◌<◌, ◌+◌, true, length, IfSome};
ghost use Rattle.std.specs.Char.{is_ascii_hexdigit, digit_value};
ghost use Rattle.page_policy.specs.Grammar as spec;
ghost use Rattle.page_policy.specs.Views.{byte_read, range_read, signs};

use text_base::ByteRange;

/// A byte that is read, and what stands behind it.
pub(crate) type Read<'a> = (u8, &'a [u8]);

/// What a digit of base 16 stands for; 0 for any other byte.
fn digit(byte: u8) -> u8
    ensures value { is_ascii_hexdigit byte ≡ true → result ≡ digit_value byte }
    ensures small { result < 16 }
{
    match byte {
        b'0'..=b'9' => byte - b'0',
        b'A'..=b'F' => byte - b'A' + 10,
        b'a'..=b'f' => byte - b'a' + 10,
        _ => 0,
    }
}

/// What stands behind `\x`: two digits of base 16.
#[tactic(auto, unfolding(crate::specs::Grammar::digits_at))]
fn digits_at(bytes: &[u8]) -> Option<Read<'_>>
    ensures value { byte_read result ≡ spec.digits_at bytes.now }
    ensures behind { IfSome result (λ r. length r.1.now < length bytes.now) }
{
    let Some((high, others)) = bytes.split_first() else {
        return None;
    };
    let Some((low, rest)) = others.split_first() else {
        return None;
    };
    if high.is_ascii_hexdigit() && low.is_ascii_hexdigit() {
        Some((16 * digit(*high) + digit(*low), rest))
    } else {
        None
    }
}

/// What stands behind a backslash: the byte that both stand for.
fn escape_at(bytes: &[u8]) -> Option<Read<'_>>
    ensures value { byte_read result ≡ spec.escape_at bytes.now }
    ensures behind { IfSome result (λ r. length r.1.now < length bytes.now) }
{
    let Some((byte, rest)) = bytes.split_first() else {
        return None;
    };
    match *byte {
        b'n' => Some((10, rest)),
        b'r' => Some((13, rest)),
        b't' => Some((9, rest)),
        b'x' => digits_at(rest),
        byte if byte.is_ascii_punctuation() => Some((byte, rest)),
        _ => None,
    }
}

/// Whether a byte does not stand for itself, in a set of bytes or elsewhere.
fn is_sign(in_set: bool, byte: u8) -> bool
    ensures { result ≡ signs in_set byte }
{
    if in_set {
        byte == 93 || byte == 45 || byte == 94
    } else {
        byte == 46
            || byte == 124
            || byte == 40
            || byte == 41
            || byte == 91
            || byte == 93
            || byte == 42
            || byte == 43
            || byte == 63
    }
}

/// A byte that stands for itself, in a set of bytes or elsewhere, or one behind a backslash.
pub(crate) fn byte_at(in_set: bool, bytes: &[u8]) -> Option<Read<'_>>
    ensures value { byte_read result ≡ spec.byte_at (signs in_set) bytes.now }
    ensures behind { IfSome result (λ r. length r.1.now < length bytes.now) }
{
    let Some((byte, rest)) = bytes.split_first() else {
        return None;
    };
    if *byte == 92 {
        return escape_at(rest);
    }
    if is_sign(in_set, *byte) {
        None
    } else {
        Some((*byte, rest))
    }
}

/// What stands behind the first byte of a range: `-` and the last one, or nothing.
fn range_from(low: u8, bytes: &[u8]) -> Option<(ByteRange, &[u8])>
    ensures value { range_read result ≡ spec.range_from low bytes.now }
    ensures behind { IfSome result (λ r. length r.1.now < length bytes.now + 1) }
{
    match bytes.split_first() {
        Some((dash, rest)) if *dash == 45 => {
            let Some((high, rest)) = byte_at(true, rest) else {
                return None;
            };
            match ByteRange::new(low, high) {
                Some(range) => Some((range, rest)),
                None => None,
            }
        }
        _ => Some((ByteRange { lo: low, hi: low }, bytes)),
    }
}

/// A range of a set: one byte, or two with `-` between them.
pub(crate) fn range_at(bytes: &[u8]) -> Option<(ByteRange, &[u8])>
    ensures value { range_read result ≡ spec.range_at bytes.now }
    ensures behind { IfSome result (λ r. length r.1.now < length bytes.now) }
{
    match byte_at(true, bytes) {
        Some((low, rest)) => range_from(low, rest),
        None => None,
    }
}
