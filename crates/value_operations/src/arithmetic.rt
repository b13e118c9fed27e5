//! Arithmetic on values. No operation takes memory.

ghost use Rattle.std.specs.Prelude.{◌≡◌, ℤ, pos, ◌+ℤ◌, ◌-ℤ◌, ◌*ℤ◌, neg_ℤ, int_div, int_rem, IfOk, IfErr, Ok, Err};
ghost use Rattle.plain_values.specs.Arithmetic as spec;
ghost use Rattle.plain_values.specs.Arithmetic.{in_64_bits, unless_zero};
ghost use Rattle.php_values.specs.View.{plain_of};

use php_values::Value;
use plain_values::{Fault, Numeric, numeric_of};

/// An operand as a number (PHP manual, "Numeric strings"): an integer itself, null 0, false 0 and
/// true 1, an integer text its value. Faults Float at a text that is a float, NotNumber at another
/// text, and WrongType at an array.
pub fn number_of(value: &Value) -> Result<i64, Fault>
    ensures { result ≡ spec.number_of (plain_of value.now) }
{
    match value {
        Value::Null | Value::Flag(false) => Ok(0),
        Value::Flag(true) => Ok(1),
        Value::Int(number) => Ok(*number),
        Value::Text(text) => match numeric_of(text.as_slice()) {
            Numeric::Integer(number) => Ok(number),
            Numeric::Float => Err(Fault::Float),
            Numeric::Other => Err(Fault::NotNumber),
        },
        Value::Array(_) => Err(Fault::WrongType),
    }
}

#[tactic(auto, using(plain_values::proofs::DecimalLemmas::in_64_some, plain_values::proofs::DecimalLemmas::in_64_none))]
fn add(x: i64, y: i64) -> Result<i64, Fault>
    ensures { result ≡ in_64_bits (x +ℤ y) }
{
    match x.checked_add(y) {
        Some(sum) => Ok(sum),
        None => Err(Fault::Float),
    }
}

#[tactic(auto, using(plain_values::proofs::DecimalLemmas::in_64_some, plain_values::proofs::DecimalLemmas::in_64_none))]
fn subtract(x: i64, y: i64) -> Result<i64, Fault>
    ensures { result ≡ in_64_bits (x -ℤ y) }
{
    match x.checked_sub(y) {
        Some(difference) => Ok(difference),
        None => Err(Fault::Float),
    }
}

#[tactic(auto, using(plain_values::proofs::DecimalLemmas::in_64_some, plain_values::proofs::DecimalLemmas::in_64_none))]
fn multiply(x: i64, y: i64) -> Result<i64, Fault>
    ensures { result ≡ in_64_bits (x *ℤ y) }
{
    match x.checked_mul(y) {
        Some(product) => Ok(product),
        None => Err(Fault::Float),
    }
}

#[tactic(auto, using(plain_values::proofs::DecimalLemmas::in_64_some, plain_values::proofs::DecimalLemmas::in_64_none))]
fn negate(x: i64) -> Result<i64, Fault>
    ensures { result ≡ in_64_bits (neg_ℤ x) }
{
    match x.checked_neg() {
        Some(negation) => Ok(negation),
        None => Err(Fault::Float),
    }
}

// The quotient, cut towards zero.
fn divide(x: i64, y: i64) -> Result<i64, Fault>
    ensures { result ≡ unless_zero y (in_64_bits (int_div x y)) }
{
    if y == 0 {
        return Err(Fault::ZeroDivisor);
    }
    match x.checked_div(y) {
        Some(quotient) => Ok(quotient),
        None => Err(Fault::Float),
    }
}

// The remainder, with the sign of the dividend.
fn remain(x: i64, y: i64) -> Result<i64, Fault>
    ensures { result ≡ unless_zero y (Ok (int_rem x y)) }
{
    if y == 0 {
        return Err(Fault::ZeroDivisor);
    }
    Ok(x.wrapping_rem(y))
}

/// `a + b` (PHP manual, "Arithmetic operators"). Faults as [`number_of`] at the left operand, then
/// at the right one, and Float exactly where the result is no integer of 64 bits.
pub fn sum(a: &Value, b: &Value) -> Result<Value, Fault>
    ensures ok { IfOk result (λ v. spec.sum_of (plain_of a.now) (plain_of b.now) ≡ Ok (plain_of v)) }
    ensures err { IfErr result (λ fault. spec.sum_of (plain_of a.now) (plain_of b.now) ≡ Err fault) }
{
    let x = number_of(a)?;
    let y = number_of(b)?;
    Ok(Value::Int(add(x, y)?))
}

/// `a - b` (PHP manual, "Arithmetic operators"). Faults as [`sum`].
pub fn difference(a: &Value, b: &Value) -> Result<Value, Fault>
    ensures ok { IfOk result
        (λ v. spec.difference_of (plain_of a.now) (plain_of b.now) ≡ Ok (plain_of v)) }
    ensures err { IfErr result
        (λ fault. spec.difference_of (plain_of a.now) (plain_of b.now) ≡ Err fault) }
{
    let x = number_of(a)?;
    let y = number_of(b)?;
    Ok(Value::Int(subtract(x, y)?))
}

/// `a * b` (PHP manual, "Arithmetic operators"). Faults as [`sum`].
pub fn product(a: &Value, b: &Value) -> Result<Value, Fault>
    ensures ok { IfOk result
        (λ v. spec.product_of (plain_of a.now) (plain_of b.now) ≡ Ok (plain_of v)) }
    ensures err { IfErr result
        (λ fault. spec.product_of (plain_of a.now) (plain_of b.now) ≡ Err fault) }
{
    let x = number_of(a)?;
    let y = number_of(b)?;
    Ok(Value::Int(multiply(x, y)?))
}

/// `a % b` (PHP manual, "Arithmetic operators"): the remainder has the sign of the dividend.
/// Faults as [`number_of`] at the left operand, then at the right one, and ZeroDivisor exactly
/// where the divisor is 0.
pub fn remainder(a: &Value, b: &Value) -> Result<Value, Fault>
    ensures ok { IfOk result
        (λ v. spec.remainder_of (plain_of a.now) (plain_of b.now) ≡ Ok (plain_of v)) }
    ensures err { IfErr result
        (λ fault. spec.remainder_of (plain_of a.now) (plain_of b.now) ≡ Err fault) }
{
    let x = number_of(a)?;
    let y = number_of(b)?;
    Ok(Value::Int(remain(x, y)?))
}

/// `intdiv(a, b)` (PHP manual): the quotient is cut towards zero. Faults as [`remainder`], and
/// Float exactly where the quotient is no integer of 64 bits.
pub fn integer_quotient(a: &Value, b: &Value) -> Result<Value, Fault>
    ensures ok { IfOk result
        (λ v. spec.quotient_of (plain_of a.now) (plain_of b.now) ≡ Ok (plain_of v)) }
    ensures err { IfErr result
        (λ fault. spec.quotient_of (plain_of a.now) (plain_of b.now) ≡ Err fault) }
{
    let x = number_of(a)?;
    let y = number_of(b)?;
    Ok(Value::Int(divide(x, y)?))
}

/// `-a` (PHP manual, "Arithmetic operators"). Faults as [`number_of`], and Float exactly at the
/// least integer.
pub fn negated(a: &Value) -> Result<Value, Fault>
    ensures ok { IfOk result (λ v. spec.negation_of (plain_of a.now) ≡ Ok (plain_of v)) }
    ensures err { IfErr result (λ fault. spec.negation_of (plain_of a.now) ≡ Err fault) }
{
    let x = number_of(a)?;
    Ok(Value::Int(negate(x)?))
}

/// What `++` makes of a value (PHP manual, "Incrementing/decrementing operators"). Faults
/// WrongType exactly where it is no integer, and Float exactly at the last one.
pub fn incremented(a: &Value) -> Result<Value, Fault>
    ensures ok { IfOk result (λ v. spec.increment_of (plain_of a.now) ≡ Ok (plain_of v)) }
    ensures err { IfErr result (λ fault. spec.increment_of (plain_of a.now) ≡ Err fault) }
{
    match a {
        Value::Int(number) => Ok(Value::Int(add(*number, 1)?)),
        Value::Null | Value::Flag(_) | Value::Text(_) | Value::Array(_) => Err(Fault::WrongType),
    }
}

/// What `--` makes of a value (PHP manual, "Incrementing/decrementing operators"). Faults
/// WrongType exactly where it is no integer, and Float exactly at the first one.
pub fn decremented(a: &Value) -> Result<Value, Fault>
    ensures ok { IfOk result (λ v. spec.decrement_of (plain_of a.now) ≡ Ok (plain_of v)) }
    ensures err { IfErr result (λ fault. spec.decrement_of (plain_of a.now) ≡ Err fault) }
{
    match a {
        Value::Int(number) => Ok(Value::Int(subtract(*number, 1)?)),
        Value::Null | Value::Flag(_) | Value::Text(_) | Value::Array(_) => Err(Fault::WrongType),
    }
}
