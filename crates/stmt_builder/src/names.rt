//! Names, and the rules that they keep.

ghost use Rattle.std.specs.Prelude.{◌≡◌, IfOk};
ghost use Rattle.std.specs.Str.{str_to_ascii_lowercase};
ghost use Rattle.script_grammar.specs.Rules as rules;

use script_grammar::reserved::is_writable;
use std::alloc::Global;
use text_base::{Bytes, NoMemory};

/// Whether a variable of this name may be written, if there is one.
pub(crate) fn maybe_writable(name: &Option<Bytes>) -> bool
    ensures { result ≡ rules.maybe_writable name.now }
{
    match name {
        None => true,
        Some(name) => is_writable(name.as_slice()),
    }
}

/// Whether bytes are UTF-8.
pub(crate) fn is_text(bytes: &[u8]) -> bool
    ensures { result ≡ rules.is_utf8 bytes.now }
{
    std::str::from_utf8(bytes).is_ok()
}

/// A name in lower case.
pub(crate) fn lower_case(alloc: Global, name: &Bytes) -> Result<Bytes, NoMemory>
    ensures { IfOk result (λ lower. lower ≡ str_to_ascii_lowercase name.now) }
{
    Ok(Bytes::from_vec(name.as_slice().to_ascii_lowercase(alloc)?))
}
