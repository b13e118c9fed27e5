//! The keys in templates.

ghost use Rattle.std.specs.Prelude.{◌≡◌, ◌≤◌, ◌<◌, ◌+◌, ◌∷◌, ℕ, length, IfOk, IfSome};
ghost use Rattle.lexical_grammar.specs.Texts as spec;
ghost use Rattle.php_syntax.specs.Tokens.{plain_key};
ghost use Rattle.php_lexer.specs.Rows.{plain_found, FoundWithin};
ghost use Rattle.php_lexer.specs.Templates.{maybe_key, maybe_keys};

use crate::found::Found;
use crate::numbers::{has_leading_zero, value_of};
use crate::scan::{begins, behind, digits_length, front, name_length};
use crate::single::single_quoted;
use php_syntax::token::PartKey;
use std::alloc::Global;
use text_base::{Bytes, NoMemory};

// A canonical unsigned integer in range.
fn integer_key(bytes: &[u8]) -> Option<(PartKey, usize)>
    ensures value { maybe_key result ≡ spec.integer_key bytes.now }
    ensures within { IfSome result (λ key. key.1 ≤ length bytes.now) }
{
    let n = digits_length(bytes);
    let digits = front(bytes, n);
    if n == 0 || has_leading_zero(digits) {
        return None;
    }
    match value_of(digits) {
        None => None,
        Some(value) => Some((PartKey::Int(value), n)),
    }
}

// A variable.
fn variable_key(alloc: Global, bytes: &[u8]) -> Result<Option<(PartKey, usize)>, NoMemory>
    ensures value { IfOk result (λ o. maybe_key o ≡ spec.variable_key bytes.now) }
    ensures within { IfOk result (λ o. IfSome o (λ key. key.1 ≤ length bytes.now)) }
{
    let inner = behind(bytes, 1);
    let n = name_length(inner);
    if begins(bytes, b"$") && 0 < n {
        let name = Bytes::from_slice(alloc, front(inner, n))?;
        Ok(Some((PartKey::Var(name), 1 + n)))
    } else {
        Ok(None)
    }
}

// An integer or a variable.
fn unquoted_key(alloc: Global, bytes: &[u8]) -> Result<Option<(PartKey, usize)>, NoMemory>
    ensures value { IfOk result
        (λ o. maybe_key o ≡ spec.or_key (spec.integer_key bytes.now) (spec.variable_key bytes.now)) }
    ensures within { IfOk result (λ o. IfSome o (λ key. key.1 ≤ length bytes.now)) }
{
    match integer_key(bytes) {
        Some(key) => Ok(Some(key)),
        None => variable_key(alloc, bytes),
    }
}

// The key of `$x[key]`.
#[tactic(auto, unfolding(lexical_grammar::specs::Texts::simple_key))]
fn simple_key(alloc: Global, bytes: &[u8]) -> Result<Option<(PartKey, usize)>, NoMemory>
    ensures value { IfOk result (λ o. maybe_key o ≡ spec.simple_key bytes.now) }
    ensures within { IfOk result (λ o. IfSome o (λ key. key.1 ≤ length bytes.now)) }
{
    let n = name_length(bytes);
    if n == 0 {
        return unquoted_key(alloc, bytes);
    }
    let name = Bytes::from_slice(alloc, front(bytes, n))?;
    Ok(Some((PartKey::Text(name), n)))
}

// A key of `{$x[key]}`.
#[tactic(auto, unfolding(lexical_grammar::specs::Texts::braced_key))]
fn braced_key(alloc: Global, bytes: &[u8]) -> Result<Option<(PartKey, usize)>, NoMemory>
    ensures value { IfOk result (λ o. maybe_key o ≡ spec.braced_key bytes.now) }
    ensures within { IfOk result (λ o. IfSome o (λ key. key.1 ≤ length bytes.now)) }
{
    if !begins(bytes, b"'") {
        return unquoted_key(alloc, bytes);
    }
    match single_quoted(alloc, behind(bytes, 1))? {
        None => Ok(None),
        Some((text, n)) => Ok(Some((PartKey::Text(text), 1 + n))),
    }
}

// The key with `]` behind it, counted from the `[` before it on.
fn closed_key(key: Option<(PartKey, usize)>, inner: &[u8]) -> Option<(PartKey, usize)>
    requires { IfSome key (λ key. key.1 ≤ length inner.now) }
    ensures value { maybe_key result ≡ spec.closed_key (maybe_key key) inner.now }
    ensures within { IfSome result (λ key. (0 < key.1) × (key.1 ≤ length inner.now + 1)) }
{
    match key {
        None => None,
        Some((key, n)) => {
            if begins(behind(inner, n), b"]") {
                Some((key, n + 2))
            } else {
                None
            }
        }
    }
}

/// The key of `$x[key]` and its `]`, from the `[` on; the bytes are those behind it.
pub fn closed_simple_key(alloc: Global, inner: &[u8]) -> Result<Option<(PartKey, usize)>, NoMemory>
    ensures value { IfOk result
        (λ o. maybe_key o ≡ spec.closed_key (spec.simple_key inner.now) inner.now) }
    ensures within { IfOk result
        (λ o. IfSome o (λ key. (0 < key.1) × (key.1 ≤ length inner.now + 1))) }
{
    let key = simple_key(alloc, inner)?;
    Ok(closed_key(key, inner))
}

// A key of `{$x[key]}` and its `]`, from the `[` on; the bytes are those behind it.
fn closed_braced_key(alloc: Global, inner: &[u8]) -> Result<Option<(PartKey, usize)>, NoMemory>
    ensures value { IfOk result
        (λ o. maybe_key o ≡ spec.closed_key (spec.braced_key inner.now) inner.now) }
    ensures within { IfOk result
        (λ o. IfSome o (λ key. (0 < key.1) × (key.1 ≤ length inner.now + 1))) }
{
    let key = braced_key(alloc, inner)?;
    Ok(closed_key(key, inner))
}

// One place of the subscripts in braces.
#[tactic(auto, unfolding(lexical_grammar::specs::Texts::subscript_at))]
fn subscript_at(alloc: Global, bytes: &[u8]) -> Result<Found<PartKey>, NoMemory>
    ensures value { IfOk result (λ found. plain_found plain_key found ≡ spec.subscript_at bytes.now) }
    ensures within { IfOk result (FoundWithin (length bytes.now)) }
{
    let inner = behind(bytes, 1);
    match bytes {
        [] => Ok(Found::Missing),
        [byte, ..] => {
            if *byte == b'}' {
                return Ok(Found::Over(1));
            }
            if *byte != b'[' {
                return Ok(Found::Wrong(1));
            }
            match closed_braced_key(alloc, inner)? {
                None => Ok(Found::Wrong(1)),
                Some((key, n)) => Ok(Found::Item(key, n)),
            }
        }
    }
}

/// The keys behind the name in `{$x..}`, and how many bytes they take with the `}`.
pub fn subscripts(alloc: Global, bytes: &[u8]) -> Result<Option<(Vec<PartKey>, usize)>, NoMemory>
    ensures value { IfOk result (λ o. maybe_keys o ≡ spec.subscripts bytes.now) }
    ensures within { IfOk result (λ o. IfSome o (λ keys. keys.1 ≤ length bytes.now)) }
{
    let mut keys = Vec::new(alloc);
    let mut n = 0;
    while n < bytes.len() {
        match subscript_at(alloc, behind(bytes, n))? {
            Found::Item(key, k) => {
                keys.push(key)?;
                n += k;
            }
            Found::Over(k) => return Ok(Some((keys, n + k))),
            Found::Wrong(_) => return Ok(None),
            Found::Missing => return Ok(None),
        }
    }
    Ok(None)
}
