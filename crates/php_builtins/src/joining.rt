//! Joining the members of an array.

ghost use Rattle.std.specs.Prelude.{◌≡◌, ◌⊎◌, ◌++◌, ◌≤◌, length, nat_lt, IfOk, IfErr, Ok, Err};
ghost use Rattle.text_base.specs.declared.limits.TheConstants.{TEXT_LIMIT};
ghost use Rattle.plain_values.specs.Plain.{Plain};
ghost use Rattle.plain_values.specs.Text.{text_of as text_form};
ghost use Rattle.plain_values.specs.Members.{within_length};
ghost use Rattle.string_functions.specs.Pieces.{join_of};
ghost use Rattle.builtin_meaning.specs.Values.{member_texts};
ghost use Rattle.php_values.specs.View.{plain_of, pairs_of};
ghost use Rattle.php_builtins.specs.Joined.{behind_first};

use php_values::{Array, Key, Text, Value};
use plain_values::Fault;
use std::alloc::Global;
use text_base::NoMemory;
use text_base::limits::TEXT_LIMIT;
use value_operations::{length_of, text_of};

// Whether the text forms with the separator between them are longer than a text may be.
fn is_too_long(
    alloc: Global,
    sep: &[u8],
    first: &Value,
    others: &[(Key, Value)],
) -> Result<bool, NoMemory>
    ensures { IfOk result (λ long. long ≡ nat_lt TEXT_LIMIT (length (text_form (plain_of first.now)
        ++ behind_first sep.now (pairs_of others.now)))) }
{
    let mut total = length_of(alloc, first)?;
    let mut rest = others;
    while let Some((pair, more)) = rest.split_first() {
        if sep.len() > TEXT_LIMIT - total {
            return Ok(true);
        }
        total += sep.len();
        let own = length_of(alloc, &pair.1)?;
        if own > TEXT_LIMIT - total {
            return Ok(true);
        }
        total += own;
        rest = more;
    }
    Ok(false)
}

fn push_member(alloc: Global, out: &mut Vec<u8>, sep: &[u8], value: &Value) -> Result<(), NoMemory>
    ensures { IfOk result
        (λ _. out.new.items ≡ out.old.items ++ (sep.now ++ text_form (plain_of value.now))) }
{
    let form = text_of(alloc, value)?;
    out.extend_from_slice(sep)?;
    out.extend_from_slice(form.as_slice())?;
    Ok(())
}

fn joined(
    alloc: Global,
    sep: &[u8],
    first: &Value,
    others: &[(Key, Value)],
) -> Result<Vec<u8>, NoMemory>
    requires { length (text_form (plain_of first.now)
        ++ behind_first sep.now (pairs_of others.now)) ≤ TEXT_LIMIT }
    ensures { IfOk result
        (λ bytes. bytes.items ≡ text_form (plain_of first.now)
        ++ behind_first sep.now (pairs_of others.now)) }
{
    let mut out = Vec::new(alloc);
    let form = text_of(alloc, first)?;
    out.extend_from_slice(form.as_slice())?;
    let mut rest = others;
    while let Some((pair, more)) = rest.split_first() {
        push_member(alloc, &mut out, sep, &pair.1)?;
        rest = more;
    }
    Ok(out)
}

/// `implode(sep, array)` (PHP manual): the text forms of the members with the separator between
/// each two. Faults Long exactly where they are longer than 16,777,216 bytes together, before
/// anything is built.
pub fn implode(alloc: Global, sep: &[u8], array: &Array) -> Result<Text, Fault>
    ensures ok { IfOk result
        (λ t. within_length (join_of sep.now (member_texts array.now)) ≡ Ok (Plain.text t)) }
    ensures err { IfErr result
        (λ fault. (fault ≡ Fault.Memory)
        ⊎ (within_length (join_of sep.now (member_texts array.now)) ≡ Err fault)) }
{
    implode_pairs(alloc, sep, array.pairs())
}

fn implode_pairs(alloc: Global, sep: &[u8], pairs: &[(Key, Value)]) -> Result<Text, Fault>
    ensures ok { IfOk result
        (λ t. within_length (join_of sep.now (member_texts (pairs_of pairs.now)))
        ≡ Ok (Plain.text t)) }
    ensures err { IfErr result (λ fault. (fault ≡ Fault.Memory)
        ⊎ (within_length (join_of sep.now (member_texts (pairs_of pairs.now))) ≡ Err fault)) }
{
    match pairs.split_first() {
        None => Text::new(alloc, b""),
        Some((pair, others)) => implode_from(alloc, sep, &pair.1, others),
    }
}

fn implode_from(
    alloc: Global,
    sep: &[u8],
    first: &Value,
    others: &[(Key, Value)],
) -> Result<Text, Fault>
    ensures ok { IfOk result
        (λ t. within_length (text_form (plain_of first.now)
        ++ behind_first sep.now (pairs_of others.now))
        ≡ Ok (Plain.text t)) }
    ensures err { IfErr result (λ fault. (fault ≡ Fault.Memory)
        ⊎ (within_length (text_form (plain_of first.now)
        ++ behind_first sep.now (pairs_of others.now)) ≡ Err fault)) }
{
    if is_too_long(alloc, sep, first, others)? {
        return Err(Fault::Long);
    }
    let bytes = joined(alloc, sep, first, others)?;
    Text::from_vec(alloc, bytes)
}
