//! Bytes outside PHP.

ghost use Rattle.std.specs.Prelude.{◌≡◌, ◌<◌, length, drop};
ghost use Rattle.php_writer.specs.Openers as spec;
ghost use Rattle.spellable.specs.Spellable as spelled;

use lexical_grammar::is_blank;

// Whether `<?php` in any case and a blank stand first.
fn opens_php(bytes: &[u8]) -> bool
    ensures { result ≡ spec.opens_php bytes.now }
{
    match bytes.split_at_checked(5) {
        Some((tag, [blank, ..])) => tag.eq_ignore_ascii_case(b"<?php") && is_blank(*blank),
        _ => false,
    }
}

// Whether an opener stands first.
#[tactic(auto, unfolding(crate::specs::Openers::opens))]
fn opens(bytes: &[u8]) -> bool
    ensures { result ≡ spec.opens bytes.now }
{
    bytes.starts_with(b"<?=") || opens_php(bytes)
}

// Whether an opener stands at this place.
fn opens_at(bytes: &[u8], place: usize) -> bool
    requires { place < length bytes.now }
    ensures { result ≡ spec.opens (drop place bytes.now) }
{
    opens(&bytes[place..])
}

// Whether no opener begins in the bytes.
#[tactic(auto, using(crate::proofs::OpenerLemmas::none_end))]
fn none_opens(bytes: &[u8]) -> bool
    ensures { result ≡ spec.none_opens bytes.now }
{
    for place in 0..bytes.len() {
        if opens_at(bytes, place) {
            return false;
        }
    }
    true
}

/// Whether the bytes can stand outside PHP.
#[tactic(auto, using(crate::proofs::OpenerLemmas::inline_is, crate::proofs::OpenerLemmas::empty_is))]
pub fn is_inline(text: &[u8]) -> bool
    ensures { result ≡ spelled.is_inline text.now }
{
    if text.is_empty() {
        return false;
    }
    none_opens(text)
}
