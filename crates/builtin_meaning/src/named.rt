//! The functions by their names.

ghost use Rattle.std.specs.Prelude.{◌≡◌, Option, Some, None, map};
ghost use Rattle.builtin_meaning.specs.Names.{find_function, first_of, builtin_named, text_functions, code_functions, list_functions, number_functions};

use crate::builtin::Builtin;

impl Builtin {
    /// The function of a name, which is in lower case; none where PHP's functions here have no such
    /// name.
    pub fn of(name: &[u8]) -> Option<Builtin>
        ensures { result ≡ builtin_named name.now }
    {
        if let Some(found) = text_function(name) {
            return Some(found);
        }
        if let Some(found) = code_function(name) {
            return Some(found);
        }
        if let Some(found) = list_function(name) {
            return Some(found);
        }
        number_function(name)
    }
}

// The function of the first row with this name.
fn function_in(rows: &[(&[u8], Builtin)], name: &[u8]) -> Option<Builtin>
    ensures { result ≡ find_function (map (λ row. (row.0.now, row.1)) rows.now) name.now }
{
    for (word, function) in rows {
        if name == *word {
            return Some(*function);
        }
    }
    None
}

// The functions that change a text.
fn text_function(name: &[u8]) -> Option<Builtin>
    ensures { result ≡ find_function text_functions name.now }
{
    function_in(
        &[
            (b"str_replace", Builtin::StrReplace),
            (b"substr", Builtin::Substr),
            (b"strtolower", Builtin::Strtolower),
            (b"strtoupper", Builtin::Strtoupper),
            (b"ucfirst", Builtin::Ucfirst),
            (b"trim", Builtin::Trim),
            (b"ltrim", Builtin::Ltrim),
            (b"rtrim", Builtin::Rtrim),
            (b"str_repeat", Builtin::StrRepeat),
        ],
        name,
    )
}

// The functions that escape and encode.
fn code_function(name: &[u8]) -> Option<Builtin>
    ensures { result ≡ find_function code_functions name.now }
{
    function_in(
        &[
            (b"htmlspecialchars", Builtin::Htmlspecialchars),
            (b"nl2br", Builtin::Nl2br),
            (b"urlencode", Builtin::Urlencode),
            (b"rawurlencode", Builtin::Rawurlencode),
            (b"addslashes", Builtin::Addslashes),
        ],
        name,
    )
}

// The functions between texts and arrays, and the tests of a type.
fn list_function(name: &[u8]) -> Option<Builtin>
    ensures { result ≡ find_function list_functions name.now }
{
    function_in(
        &[
            (b"explode", Builtin::Explode),
            (b"implode", Builtin::Implode),
            (b"is_array", Builtin::IsArray),
            (b"is_string", Builtin::IsString),
        ],
        name,
    )
}

// The functions that give a number, and the text form.
fn number_function(name: &[u8]) -> Option<Builtin>
    ensures { result ≡ find_function number_functions name.now }
{
    function_in(
        &[
            (b"strlen", Builtin::Strlen),
            (b"count", Builtin::Count),
            (b"intval", Builtin::Intval),
            (b"intdiv", Builtin::Intdiv),
            (b"strval", Builtin::Strval),
        ],
        name,
    )
}
