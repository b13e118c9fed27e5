//! Joining values as texts.

ghost use Rattle.std.specs.Prelude.{◌≡◌, ◌⊎◌, ◌≤◌, ◌++◌, length, IfOk, IfErr, Ok, Err};
ghost use Rattle.text_base.specs.declared.limits.TheConstants.{TEXT_LIMIT};
ghost use Rattle.plain_values.specs.Text.{text_of};
ghost use Rattle.plain_values.specs.Members.{within_length};
ghost use Rattle.plain_values.specs.Joins.{join_of, appended_to};
ghost use Rattle.php_values.specs.View.{plain_of, plain_list};
ghost use Rattle.value_operations.specs.Joined.{joined};

use crate::forms::text_of;
use php_values::{Text, Value};
use plain_values::{Fault, decimal};
use std::alloc::Global;
use text_base::NoMemory;
use text_base::limits::TEXT_LIMIT;

/// How many bytes the text form of a value has. A text is not copied.
pub fn length_of(alloc: Global, value: &Value) -> Result<usize, NoMemory>
    ensures value { IfOk result (λ n. n ≡ length (text_of (plain_of value.now))) }
    ensures short { IfOk result (λ n. n ≤ TEXT_LIMIT) }
{
    match value {
        Value::Null | Value::Flag(false) => Ok(0),
        Value::Flag(true) => Ok(1),
        Value::Int(number) => {
            let form = decimal(alloc, *number)?;
            Ok(form.len())
        }
        Value::Text(text) => Ok(text.as_slice().len()),
        Value::Array(_) => Ok(5),
    }
}

/// `a . b . c`, and a text with values in it (PHP manual, "String operators"): the text forms in
/// turn. Faults Long exactly where they are longer than 16,777,216 bytes together, before anything
/// is built.
pub fn join(alloc: Global, parts: &[Value]) -> Result<Value, Fault>
    ensures ok { IfOk result (λ v. join_of (plain_list parts.now) ≡ Ok (plain_of v)) }
    ensures err { IfErr result
        (λ fault. (fault ≡ Fault.Memory) ⊎ (join_of (plain_list parts.now) ≡ Err fault)) }
{
    let mut total: usize = 0;
    for part in parts {
        total += length_of(alloc, part)?;
        if total > TEXT_LIMIT {
            return Err(Fault::Long);
        }
    }
    let bytes = joined(alloc, parts)?;
    let text = Text::from_vec(alloc, bytes)?;
    Ok(Value::Text(text))
}

// The text forms in turn.
fn joined(alloc: Global, parts: &[Value]) -> Result<Vec<u8>, NoMemory>
    ensures { IfOk result (λ bytes. bytes.items ≡ joined parts.now) }
{
    let mut bytes = Vec::new(alloc);
    for part in parts {
        let form = text_of(alloc, part)?;
        bytes.extend_from_slice(form.as_slice())?;
    }
    Ok(bytes)
}

/// `a .= b` (PHP manual, "String operators"): the old value as a text with the text form of the
/// new one behind it, in place where the old value is a text that nothing else holds. Faults Long
/// exactly where both are longer than 16,777,216 bytes together.
pub fn append_to(alloc: Global, old: Value, more: &Value) -> Result<Value, Fault>
    ensures ok { IfOk result (λ v. appended_to (plain_of old) (plain_of more.now) ≡ Ok (plain_of v)) }
    ensures err { IfErr result
        (λ fault. (fault ≡ Fault.Memory)
        ⊎ (appended_to (plain_of old) (plain_of more.now) ≡ Err fault)) }
{
    let form = text_of(alloc, more)?;
    match old.into_text() {
        Ok(text) => append_form(text, &form),
        Err(other) => {
            let text = text_of(alloc, &other)?;
            append_form(text, &form)
        }
    }
}

fn append_form(text: Text, form: &Text) -> Result<Value, Fault>
    ensures ok { IfOk result (λ v. within_length (text ++ form.now) ≡ Ok (plain_of v)) }
    ensures err { IfErr result
        (λ fault. (fault ≡ Fault.Memory) ⊎ (within_length (text ++ form.now) ≡ Err fault)) }
{
    let mut text = text;
    text.append(form.as_slice())?;
    Ok(Value::Text(text))
}
