//! Names, and which variables they are of.

ghost use Rattle.std.specs.Prelude.{◌≡◌, nat_eq};
ghost use Rattle.std.specs.Char.{to_ascii_lowercase};
ghost use Rattle.std.specs.List.{list_all};
ghost use Rattle.std.specs.Str.{str_to_ascii_lowercase};
ghost use Rattle.lexical_grammar.specs.Characters as chars;
ghost use Rattle.script_grammar.specs.Terminals.{same_bytes};
ghost use Rattle.spellable.specs.Spellable as spelled;
ghost use Rattle.php_writer.specs.Tested as tested;

use lexical_grammar::{is_name_byte, is_name_start};
use script_grammar::keyword::keyword_named;
use script_grammar::reserved::{is_request, is_writable};

// Whether each byte may stand in a name.
fn are_name_bytes(bytes: &[u8]) -> bool
    ensures { result ≡ list_all chars.is_name_byte bytes.now }
{
    bytes.iter().all(|byte| is_name_byte(*byte))
}

/// Whether the bytes are a name.
pub fn is_name(name: &[u8]) -> bool
    ensures { result ≡ spelled.is_name name.now }
{
    match name.split_first() {
        None => false,
        Some((first, rest)) => is_name_start(*first) && are_name_bytes(rest),
    }
}

/// Whether the bytes are the name of a variable that is none of the request.
pub fn is_own_name(name: &[u8]) -> bool
    ensures { result ≡ spelled.is_own_name name.now }
{
    is_name(name) && !is_request(name)
}

/// Whether the bytes are the name of a variable that may be written.
pub fn is_target(name: &[u8]) -> bool
    ensures { result ≡ tested.is_target name.now }
{
    is_name(name) && is_writable(name)
}

// Whether a byte is no letter in upper case.
fn is_low(byte: u8) -> bool
    ensures { result ≡ nat_eq (to_ascii_lowercase byte) byte }
{
    byte.to_ascii_lowercase() == byte
}

// Whether no letter is in upper case.
fn is_lowered(name: &[u8]) -> bool
    ensures { result ≡ same_bytes (str_to_ascii_lowercase name.now) name.now }
{
    for byte in name {
        if !is_low(*byte) {
            return false;
        }
    }
    true
}

/// Whether the bytes are the name of a function, in lower case.
pub fn is_call_name(name: &[u8]) -> bool
    ensures { result ≡ spelled.is_call_name name.now }
{
    is_name(name) && is_lowered(name) && keyword_named(name).is_none()
}
