//! Loose comparison of values.

ghost use Rattle.std.specs.Prelude.{◌≡◌, ◌⊎◌, ◌↔◌, IsTrue, IfOk, IfErr, Ok, Err};
ghost use Rattle.plain_values.specs.Compare as spec;
ghost use Rattle.plain_values.specs.Numeric.{numeric};
ghost use Rattle.php_values.specs.View.{plain_of};

use crate::forms::truth;
use php_values::Value;
use plain_values::{Fault, Numeric, decimal, numeric_of};
use std::alloc::Global;
use std::cmp::Ordering;

/// What `<=>` answers for two values (PHP manual, "Comparison operators"): the order that `==`
/// and `<` go by. Two arrays, or an array and another value, fault Compare; two numeric texts
/// with a float among them, and an integer against a float text, fault Float.
pub fn compare(alloc: Global, a: &Value, b: &Value) -> Result<Ordering, Fault>
    ensures ok { IfOk result (λ order. spec.compare (plain_of a.now) (plain_of b.now) ≡ Ok order) }
    ensures err { IfErr result
        (λ fault. (fault ≡ Fault.Memory)
        ⊎ (spec.compare (plain_of a.now) (plain_of b.now) ≡ Err fault)) }
{
    match (a, b) {
        (Value::Array(_), _) | (_, Value::Array(_)) => Err(Fault::Compare),
        (Value::Null, Value::Text(text)) => compare_texts(b"", text.as_slice()),
        (Value::Text(text), Value::Null) => compare_texts(text.as_slice(), b""),
        (Value::Null | Value::Flag(_), _) | (_, Value::Null | Value::Flag(_)) => {
            Ok(truth(a).cmp(&truth(b)))
        }
        (Value::Int(number), Value::Int(other)) => Ok(number.cmp(other)),
        (Value::Int(number), Value::Text(text)) => {
            compare_integer(alloc, *number, text.as_slice())
        }
        (Value::Text(text), Value::Int(number)) => {
            Ok(compare_integer(alloc, *number, text.as_slice())?.reverse())
        }
        (Value::Text(text), Value::Text(other)) => {
            compare_texts(text.as_slice(), other.as_slice())
        }
    }
}

// Two texts: as numbers where both are integer texts, by bytes where one is no number.
fn compare_texts(s: &[u8], t: &[u8]) -> Result<Ordering, Fault>
    ensures { result ≡ spec.compare_texts s.now t.now }
{
    match (numeric_of(s), numeric_of(t)) {
        (Numeric::Integer(a), Numeric::Integer(b)) => Ok(a.cmp(&b)),
        (Numeric::Other, _) | (_, Numeric::Other) => Ok(s.cmp(&t)),
        _ => Err(Fault::Float),
    }
}

// An integer against a text.
fn compare_integer(alloc: Global, number: i64, text: &[u8]) -> Result<Ordering, Fault>
    ensures ok { IfOk result
        (λ order. spec.compare_integer number (numeric text.now) text.now ≡ Ok order) }
    ensures err { IfErr result
        (λ fault. (fault ≡ Fault.Memory)
        ⊎ (spec.compare_integer number (numeric text.now) text.now ≡ Err fault)) }
{
    match numeric_of(text) {
        Numeric::Integer(other) => Ok(number.cmp(&other)),
        Numeric::Float => Err(Fault::Float),
        Numeric::Other => {
            let form = decimal(alloc, number)?;
            Ok(form.as_slice().cmp(&text))
        }
    }
}

/// What `==` answers (PHP manual, "Comparison operators"). It faults as [`compare`] does.
pub fn loose_equal(alloc: Global, a: &Value, b: &Value) -> Result<bool, Fault>
    ensures ok { IfOk result
        (λ answer. spec.loose_equal (plain_of a.now) (plain_of b.now) ≡ Ok answer) }
    ensures err { IfErr result
        (λ fault. (fault ≡ Fault.Memory)
        ⊎ (spec.loose_equal (plain_of a.now) (plain_of b.now) ≡ Err fault)) }
{
    Ok(compare(alloc, a, b)?.is_eq())
}

/// What `<` answers (PHP manual, "Comparison operators"). It faults as [`compare`] does.
pub fn less(alloc: Global, a: &Value, b: &Value) -> Result<bool, Fault>
    ensures ok { IfOk result (λ answer. spec.less (plain_of a.now) (plain_of b.now) ≡ Ok answer) }
    ensures err { IfErr result
        (λ fault. (fault ≡ Fault.Memory)
        ⊎ (spec.less (plain_of a.now) (plain_of b.now) ≡ Err fault)) }
{
    Ok(compare(alloc, a, b)?.is_lt())
}
