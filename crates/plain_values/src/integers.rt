//! The decimal forms of integers.

ghost use Rattle.std.specs.Prelude.{◌≡◌, ◌≤◌, length, IfOk, Some, None, nat_eq, if◌then◌else◌};
ghost use Rattle.std.specs.Fmt.{signed_decimal};
ghost use Rattle.std.specs.Cmp.Lexicographic.{pointwise};
ghost use Rattle.plain_values.specs.Keys as keys;

use std::alloc::Global;
use text_base::{Bytes, NoMemory};

/// The decimal form of an integer, of at most 20 bytes.
pub fn decimal(alloc: Global, number: i64) -> Result<Bytes, NoMemory>
    ensures value { IfOk result (λ text. text ≡ signed_decimal number) }
    ensures short { length (signed_decimal number) ≤ 20 }
{
    let text = format!(in alloc; "{number}")?;
    Ok(Bytes::from_vec(text.into_bytes()))
}

/// The integer in range whose decimal form the text is, if there is one.
pub fn canonical_integer(alloc: Global, text: &[u8]) -> Result<Option<i64>, NoMemory>
    ensures { IfOk result (λ number. number ≡ keys.canonical_integer text.now) }
{
    match str::from_utf8(text) {
        Ok(characters) => match characters.parse::<i64>() {
            Ok(number) => {
                let form = decimal(alloc, number)?;
                Ok(if_same(form.as_slice(), text, number))
            }
            Err(_) => Ok(None),
        },
        Err(_) => Ok(None),
    }
}

fn if_same(form: &[u8], text: &[u8], number: i64) -> Option<i64>
    ensures { result ≡ (if pointwise nat_eq form.now text.now then Some number else None) }
{
    if form == text { Some(number) } else { None }
}
