//! Identity of values.

ghost use Rattle.std.specs.Prelude.{◌≡◌, ◌↔◌, IsTrue};
ghost use Rattle.php_values.specs.View.{plain_of, plain_key, pairs_of};

use php_values::{Key, Value};

/// What `===` answers (PHP manual, "Comparison operators"): whether two values have the same type
/// and are equal, arrays with equal keys and values in the same order.
#[cycle(same)]
pub fn same(a: &Value, b: &Value) -> bool
    ensures { IsTrue result ↔ (plain_of a.now ≡ plain_of b.now) }
{
    match (a, b) {
        (Value::Null, Value::Null) => true,
        (Value::Flag(truth), Value::Flag(other)) => truth == other,
        (Value::Int(number), Value::Int(other)) => number == other,
        (Value::Text(text), Value::Text(other)) => text.as_slice() == other.as_slice(),
        (Value::Array(array), Value::Array(other)) => same_pairs(array.pairs(), other.pairs()),
        _ => false,
    }
}

// Whether the pairs of two arrays are the same.
#[cycle(same)]
fn same_pairs(a: &[(Key, Value)], b: &[(Key, Value)]) -> bool
    ensures { IsTrue result ↔ (pairs_of a.now ≡ pairs_of b.now) }
{
    if a.len() != b.len() {
        return false;
    }
    for place in 0..a.len() {
        if !same_pair(&a[place], &b[place]) {
            return false;
        }
    }
    true
}

#[cycle(same)]
fn same_pair(a: &(Key, Value), b: &(Key, Value)) -> bool
    ensures { IsTrue result ↔
        ((plain_key a.now.0 ≡ plain_key b.now.0) × (plain_of a.now.1 ≡ plain_of b.now.1)) }
{
    a.0 == b.0 && same(&a.1, &b.1)
}
