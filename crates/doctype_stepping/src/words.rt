//! The words of a document type declaration.

ghost use Rattle.std.specs.Prelude.{◌≡◌, codes};
ghost use Rattle.page_steps.specs.DoctypeSteps as steps;

use dtd_model::DoctypeRule;

/// Whether the characters are the first of `html`.
pub fn begins_root(cs: &[char]) -> bool
    ensures { result ≡ steps.begins (codes "html") cs.now }
{
    ['h', 't', 'm', 'l'].as_slice().starts_with(cs)
}

/// Whether a declaration with no public identifier may stand.
pub fn is_free(rule: DoctypeRule) -> bool
    ensures { result ≡ steps.is_free rule }
{
    match rule {
        DoctypeRule::Strict => false,
        DoctypeRule::Free => true,
    }
}

fn begins_public(cs: &[char]) -> bool
    ensures { result ≡ steps.begins (codes "PUBLIC") cs.now }
{
    ['P', 'U', 'B', 'L', 'I', 'C'].as_slice().starts_with(cs)
}

fn begins_system(cs: &[char]) -> bool
    ensures { result ≡ steps.begins (codes "SYSTEM") cs.now }
{
    ['S', 'Y', 'S', 'T', 'E', 'M'].as_slice().starts_with(cs)
}

/// Whether the characters are the first of a word that the rule allows.
pub fn may_begin(rule: DoctypeRule, word: &[char]) -> bool
    ensures { result ≡ steps.may_begin rule word.now }
{
    begins_public(word) || (is_free(rule) && begins_system(word))
}
