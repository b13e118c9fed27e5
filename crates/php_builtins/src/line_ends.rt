//! Line breaks for HTML.

ghost use Rattle.std.specs.Prelude.{◌≡◌, ◌⊎◌, ◌++◌, ◌≤◌, length, nat_lt, false, IfOk, IfErr, Ok, Err};
ghost use Rattle.text_base.specs.declared.limits.TheConstants.{TEXT_LIMIT};
ghost use Rattle.plain_values.specs.Plain.{Plain};
ghost use Rattle.plain_values.specs.Members.{within_length};
ghost use Rattle.string_functions.specs.Breaks.{breaks_of, breaks_past, begins_pair as begins_pair_of};

use php_values::Text;
use plain_values::Fault;
use std::alloc::Global;
use string_functions::of_byte::is_line_end_byte;
use text_base::NoMemory;
use text_base::limits::TEXT_LIMIT;

// Whether the byte, which is LF or CR, and the one behind it are one line end.
fn begins_pair(byte: u8, rest: &[u8]) -> bool
    ensures { result ≡ begins_pair_of byte rest.now }
{
    match rest.split_first() {
        None => false,
        Some((next, _)) => is_line_end_byte(*next) && *next != byte,
    }
}

fn is_too_long(text: &[u8]) -> bool
    ensures { result ≡ nat_lt TEXT_LIMIT (length (breaks_of text.now)) }
{
    let mut total: usize = 0;
    let mut second = false;
    let mut rest = text;
    while let Some((first, others)) = rest.split_first() {
        let ends = !second && is_line_end_byte(*first);
        let more: usize = if ends { 7 } else { 1 };
        if more > TEXT_LIMIT - total {
            return true;
        }
        total += more;
        second = ends && begins_pair(*first, others);
        rest = others;
    }
    false
}

fn written(alloc: Global, text: &[u8]) -> Result<Vec<u8>, NoMemory>
    requires { length (breaks_of text.now) ≤ TEXT_LIMIT }
    ensures { IfOk result (λ bytes. bytes.items ≡ breaks_of text.now) }
{
    let mut out = Vec::new(alloc);
    let mut second = false;
    let mut rest = text;
    while let Some((first, others)) = rest.split_first() {
        let ends = !second && is_line_end_byte(*first);
        if ends {
            out.extend_from_slice(b"<br />")?;
        }
        out.push(*first)?;
        second = ends && begins_pair(*first, others);
        rest = others;
    }
    Ok(out)
}

/// `nl2br(text)` (PHP manual): `<br />` before each line end. Faults Long exactly where it would
/// be longer than 16,777,216 bytes, before anything is built.
pub fn breaks(alloc: Global, text: &[u8]) -> Result<Text, Fault>
    ensures ok { IfOk result (λ t. within_length (breaks_of text.now) ≡ Ok (Plain.text t)) }
    ensures err { IfErr result
        (λ fault. (fault ≡ Fault.Memory) ⊎ (within_length (breaks_of text.now) ≡ Err fault)) }
{
    if is_too_long(text) {
        return Err(Fault::Long);
    }
    let bytes = written(alloc, text)?;
    Text::from_vec(alloc, bytes)
}
