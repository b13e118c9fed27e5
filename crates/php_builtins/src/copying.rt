//! Copies of a text in a row.

ghost use Rattle.std.specs.Prelude.{◌≡◌, ◌⊎◌, ◌*◌, ◌≤◌, length, nat_lt, IfOk, IfErr, Ok, Err};
ghost use Rattle.text_base.specs.declared.limits.TheConstants.{TEXT_LIMIT};
ghost use Rattle.plain_values.specs.Plain.{Plain};
ghost use Rattle.plain_values.specs.Members.{within_length};
ghost use Rattle.builtin_meaning.specs.Values.{copies_at};
ghost use Rattle.string_functions.specs.Copies.{copies_of};

use php_values::Text;
use plain_values::Fault;
use std::alloc::Global;
use text_base::NoMemory;
use text_base::limits::TEXT_LIMIT;

fn copies(alloc: Global, text: &[u8], count: usize) -> Result<Vec<u8>, NoMemory>
    requires { count * length text.now ≤ TEXT_LIMIT }
    ensures { IfOk result (λ bytes. bytes.items ≡ copies_of count text.now) }
{
    let mut out = Vec::new(alloc);
    let mut left = count;
    while left > 0 {
        out.extend_from_slice(text)?;
        left -= 1;
    }
    Ok(out)
}

// Whether so many texts of a length are longer than a text may be.
fn is_too_long(count: usize, len: usize) -> bool
    ensures { result ≡ nat_lt TEXT_LIMIT (count * len) }
{
    match count.checked_mul(len) {
        None => true,
        Some(total) => total > TEXT_LIMIT,
    }
}

/// `str_repeat(text, count)` (PHP manual). Faults WrongType exactly where the count is negative,
/// and else Long exactly where the copies are longer than 16,777,216 bytes together, before
/// anything is built.
pub fn repeat(alloc: Global, text: &[u8], count: i64) -> Result<Text, Fault>
    ensures ok { IfOk result (λ t. copies_at text.now count ≡ Ok (Plain.text t)) }
    ensures err { IfErr result
        (λ fault. (fault ≡ Fault.Memory) ⊎ (copies_at text.now count ≡ Err fault)) }
{
    if count < 0 {
        return Err(Fault::WrongType);
    }
    repeat_known(alloc, text, count as u64)
}

fn repeat_known(alloc: Global, text: &[u8], count: u64) -> Result<Text, Fault>
    ensures ok { IfOk result (λ t. within_length (copies_of count text.now) ≡ Ok (Plain.text t)) }
    ensures err { IfErr result
        (λ fault. (fault ≡ Fault.Memory) ⊎ (within_length (copies_of count text.now) ≡ Err fault)) }
{
    if text.is_empty() {
        return Text::new(alloc, text);
    }
    if is_too_long(count as usize, text.len()) {
        return Err(Fault::Long);
    }
    let bytes = copies(alloc, text, count as usize)?;
    Text::from_vec(alloc, bytes)
}
