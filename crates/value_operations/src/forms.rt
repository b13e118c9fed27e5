//! The text form and the truth of a value, and the key that it stands for.

ghost use Rattle.std.specs.Prelude.{◌≡◌, ◌⊎◌, [], IfOk, IfErr, Ok, Err};
ghost use Rattle.std.specs.Fmt.{signed_decimal};
ghost use Rattle.plain_values.specs.Plain.{PlainKey};
ghost use Rattle.plain_values.specs.Text as spec;
ghost use Rattle.plain_values.specs.Keys as keys;
ghost use Rattle.php_values.specs.View.{plain_of, plain_key, pairs_of};

use php_values::{Key, KeyText, Text, Value};
use plain_values::{Fault, canonical_integer, decimal};
use std::alloc::Global;
use text_base::NoMemory;

/// The text form of a value (PHP manual, "Strings: converting to string"). PHP's warning at an
/// array is not given. The bytes of a text are not copied.
pub fn text_of(alloc: Global, value: &Value) -> Result<Text, NoMemory>
    ensures { IfOk result (λ text. text ≡ spec.text_of (plain_of value.now)) }
{
    match value {
        Value::Null | Value::Flag(false) => Text::from_short(alloc, b""),
        Value::Flag(true) => Text::from_short(alloc, b"1"),
        Value::Int(number) => decimal_text(alloc, *number),
        Value::Text(text) => text.share(),
        Value::Array(_) => Text::from_short(alloc, b"Array"),
    }
}

fn decimal_text(alloc: Global, number: i64) -> Result<Text, NoMemory>
    ensures { IfOk result (λ text. text ≡ signed_decimal number) }
{
    let form = decimal(alloc, number)?;
    Text::from_short(alloc, form.as_slice())
}

/// Whether a value is true (PHP manual, "Booleans: converting to boolean").
pub fn truth(value: &Value) -> bool
    ensures { result ≡ spec.truth (plain_of value.now) }
{
    match value {
        Value::Null => false,
        Value::Flag(truth) => *truth,
        Value::Int(number) => *number != 0,
        Value::Text(text) => text_truth(text.as_slice()),
        Value::Array(array) => has_pairs(array.pairs()),
    }
}

fn has_pairs(pairs: &[(Key, Value)]) -> bool
    ensures { result ≡ spec.pairs_truth (pairs_of pairs.now) }
{
    !pairs.is_empty()
}

fn text_truth(text: &[u8]) -> bool
    ensures { result ≡ spec.text_truth text.now }
{
    match text {
        [] => false,
        [only] => *only != b'0',
        _ => true,
    }
}

/// The key that a text is: the integer whose decimal form it is, or the text itself, whose bytes
/// are not copied.
pub fn key_of_text(alloc: Global, text: &Text) -> Result<Key, NoMemory>
    ensures { IfOk result
        (λ key. plain_key key ≡ keys.canonical_key text.now (keys.canonical_integer text.now)) }
{
    match canonical_integer(alloc, text.as_slice())? {
        Some(number) => Ok(Key::Int(number)),
        None => {
            let text = text.share()?;
            Ok(Key::Text(KeyText::new(text)))
        }
    }
}

/// The key that a value stands for (PHP manual, "Arrays"): an array is none, which faults
/// BadIndex.
pub fn key_of(alloc: Global, value: &Value) -> Result<Key, Fault>
    ensures ok { IfOk result (λ key. keys.key_of (plain_of value.now) ≡ Ok (plain_key key)) }
    ensures err { IfErr result
        (λ fault. (fault ≡ Fault.Memory) ⊎ (keys.key_of (plain_of value.now) ≡ Err fault)) }
{
    match value {
        Value::Null => Ok(empty_key(alloc)?),
        Value::Flag(false) => Ok(Key::Int(0)),
        Value::Flag(true) => Ok(Key::Int(1)),
        Value::Int(number) => Ok(Key::Int(*number)),
        Value::Text(text) => Ok(key_of_text(alloc, text)?),
        Value::Array(_) => Err(Fault::BadIndex),
    }
}

// The key that null stands for.
fn empty_key(alloc: Global) -> Result<Key, NoMemory>
    ensures { IfOk result (λ key. plain_key key ≡ PlainKey.text_key []) }
{
    let text = Text::from_short(alloc, b"")?;
    key_of_text(alloc, &text)
}
