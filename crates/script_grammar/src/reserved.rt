//! The names that PHP reserves (PHP manual, "Predefined variables").

ghost use Rattle.std.specs.Prelude.{◌≡◌};
ghost use Rattle.script_grammar.specs.Reserved as names;
ghost use Rattle.script_grammar.specs.Rules as rule;

use php_syntax::tree::SuperName;

/// The name of a variable of the request, without `$`.
pub fn request_name(name: SuperName) -> &'static [u8]
    ensures { result.now ≡ names.request_name name }
{
    match name {
        SuperName::Get => b"_GET",
        SuperName::Post => b"_POST",
        SuperName::Cookie => b"_COOKIE",
        SuperName::Request => b"_REQUEST",
        SuperName::Server => b"_SERVER",
    }
}

/// Which variable of the request a name is, if it is one.
pub fn request_named(name: &[u8]) -> Option<SuperName>
    ensures { result ≡ rule.request_named name.now }
{
    if name == b"_GET".as_slice() {
        return Some(SuperName::Get);
    }
    if name == b"_POST".as_slice() {
        return Some(SuperName::Post);
    }
    if name == b"_COOKIE".as_slice() {
        return Some(SuperName::Cookie);
    }
    if name == b"_REQUEST".as_slice() {
        return Some(SuperName::Request);
    }
    if name == b"_SERVER".as_slice() {
        return Some(SuperName::Server);
    }
    None
}

/// Whether a name is that of a variable of the request.
pub fn is_request(name: &[u8]) -> bool
    ensures { result ≡ rule.is_request name.now }
{
    request_named(name).is_some()
}

/// Whether a variable of this name stands in the language: `$this`, `$GLOBALS`, `$_FILES`,
/// `$_SESSION`, `$_ENV`, `$argv` and `$argc` do not.
pub fn is_known(name: &[u8]) -> bool
    ensures { result ≡ rule.is_known name.now }
{
    !(name == b"this".as_slice()
        || name == b"GLOBALS".as_slice()
        || name == b"_FILES".as_slice()
        || name == b"_SESSION".as_slice()
        || name == b"_ENV".as_slice()
        || name == b"argv".as_slice()
        || name == b"argc".as_slice())
}

/// Whether a variable of this name may be written: no variable of the request may.
pub fn is_writable(name: &[u8]) -> bool
    ensures { result ≡ rule.is_writable name.now }
{
    is_known(name) && !is_request(name)
}
