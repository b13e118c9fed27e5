//! A function with its arguments.

ghost use Rattle.std.specs.Prelude.{◌≡◌, ◌⊎◌, IfOk, IfErr, Ok, Err};
ghost use Rattle.plain_values.specs.Plain.{Plain};
ghost use Rattle.plain_values.specs.Walks as walks;
ghost use Rattle.builtin_meaning.specs.Values.{builtin_value, value_of_one, value_of_two, value_of_three};
ghost use Rattle.php_values.specs.View.{plain_of, plain_list};

use crate::encodings::Encoding;
use crate::values::{
    OfText, count, explode_of, htmlspecialchars, implode_of, intval, of_text, str_repeat,
    str_replace, strlen, substr_of,
};
use builtin_meaning::Builtin;
use php_values::Value;
use plain_values::Fault;
use std::alloc::Global;
use value_operations::{integer_quotient, text_of};

fn strval(alloc: Global, a: &Value) -> Result<Value, Fault>
    ensures ok { IfOk result (λ v. value_of_one Builtin.Strval (plain_of a.now) ≡ Ok (plain_of v)) }
    ensures err { IfErr result (λ fault. fault ≡ Fault.Memory) }
{
    let text = text_of(alloc, a)?;
    Ok(Value::Text(text))
}

fn apply_one(alloc: Global, builtin: Builtin, a: &Value) -> Result<Value, Fault>
    ensures ok { IfOk result (λ v. value_of_one builtin (plain_of a.now) ≡ Ok (plain_of v)) }
    ensures err { IfErr result (λ fault. (fault ≡ Fault.Memory)
        ⊎ (value_of_one builtin (plain_of a.now) ≡ Err fault)) }
{
    match builtin {
        Builtin::Htmlspecialchars => htmlspecialchars(alloc, a),
        Builtin::Strtolower => of_text(alloc, OfText::Lower, a),
        Builtin::Strtoupper => of_text(alloc, OfText::Upper, a),
        Builtin::Ucfirst => of_text(alloc, OfText::FirstUpper, a),
        Builtin::Trim => of_text(alloc, OfText::Trim(true, true), a),
        Builtin::Ltrim => of_text(alloc, OfText::Trim(true, false), a),
        Builtin::Rtrim => of_text(alloc, OfText::Trim(false, true), a),
        Builtin::Nl2br => of_text(alloc, OfText::Breaks, a),
        Builtin::Urlencode => of_text(alloc, OfText::Encoded(Encoding::Url), a),
        Builtin::Rawurlencode => of_text(alloc, OfText::Encoded(Encoding::RawUrl), a),
        Builtin::Addslashes => of_text(alloc, OfText::Encoded(Encoding::Slashes), a),
        Builtin::Strlen => strlen(alloc, a),
        Builtin::Count => count(a),
        Builtin::Intval => intval(a),
        Builtin::Strval => strval(alloc, a),
        Builtin::IsArray => Ok(is_array(a)),
        Builtin::IsString => Ok(is_string(a)),
        Builtin::StrReplace
        | Builtin::Substr
        | Builtin::Explode
        | Builtin::Implode
        | Builtin::StrRepeat
        | Builtin::Intdiv => Err(Fault::WrongType),
    }
}

fn is_array(a: &Value) -> Value
    ensures { plain_of result ≡ Plain.flag (walks.is_array (plain_of a.now)) }
{
    match a {
        Value::Array(_) => Value::Flag(true),
        Value::Null | Value::Flag(_) | Value::Int(_) | Value::Text(_) => Value::Flag(false),
    }
}

fn is_string(a: &Value) -> Value
    ensures { plain_of result ≡ Plain.flag (walks.is_text (plain_of a.now)) }
{
    match a {
        Value::Text(_) => Value::Flag(true),
        Value::Null | Value::Flag(_) | Value::Int(_) | Value::Array(_) => Value::Flag(false),
    }
}

fn apply_two(alloc: Global, builtin: Builtin, a: &Value, b: &Value) -> Result<Value, Fault>
    ensures ok { IfOk result
        (λ v. value_of_two builtin (plain_of a.now) (plain_of b.now) ≡ Ok (plain_of v)) }
    ensures err { IfErr result (λ fault. (fault ≡ Fault.Memory)
        ⊎ (value_of_two builtin (plain_of a.now) (plain_of b.now) ≡ Err fault)) }
{
    match builtin {
        Builtin::Substr => substr_of(alloc, a, b, &Value::Null),
        Builtin::Explode => explode_of(alloc, a, b),
        Builtin::Implode => implode_of(alloc, a, b),
        Builtin::StrRepeat => str_repeat(alloc, a, b),
        Builtin::Intdiv => integer_quotient(a, b),
        _ => Err(Fault::WrongType),
    }
}

fn apply_three(
    alloc: Global,
    builtin: Builtin,
    a: &Value,
    b: &Value,
    c: &Value,
) -> Result<Value, Fault>
    ensures ok { IfOk result
        (λ v. value_of_three builtin (plain_of a.now) (plain_of b.now) (plain_of c.now)
        ≡ Ok (plain_of v)) }
    ensures err { IfErr result (λ fault. (fault ≡ Fault.Memory)
        ⊎ (value_of_three builtin (plain_of a.now) (plain_of b.now) (plain_of c.now) ≡ Err fault)) }
{
    match builtin {
        Builtin::StrReplace => str_replace(alloc, a, b, c),
        Builtin::Substr => substr_of(alloc, a, b, c),
        _ => Err(Fault::WrongType),
    }
}

/// What the function gives for the arguments (PHP manual, each function under its name). A fault of
/// an earlier argument goes first; with a number of arguments that the function does not take it
/// faults WrongType. No result that is too long is built before it is refused, and time is linear
/// in arguments and result.
pub fn apply(alloc: Global, builtin: Builtin, args: &[Value]) -> Result<Value, Fault>
    ensures ok { IfOk result (λ v. builtin_value builtin (plain_list args.now) ≡ Ok (plain_of v)) }
    ensures err { IfErr result (λ fault. (fault ≡ Fault.Memory)
        ⊎ (builtin_value builtin (plain_list args.now) ≡ Err fault)) }
{
    if args.len() == 1 {
        return apply_one(alloc, builtin, &args[0]);
    }
    if args.len() == 2 {
        return apply_two(alloc, builtin, &args[0], &args[1]);
    }
    if args.len() == 3 {
        return apply_three(alloc, builtin, &args[0], &args[1], &args[2]);
    }
    Err(Fault::WrongType)
}
