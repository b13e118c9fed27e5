//! Scanning characters from the left.

ghost use Rattle.std.specs.Prelude.{◌≡◌, ◌≤◌, ◌<◌, ◌+◌, length, drop};
ghost use Rattle.std.specs.Option.{option_copied};
ghost use Rattle.page_model.specs.Scan as spec;
ghost use Rattle.page_rules.specs.Views.{class_test, seen_pair};

use crate::classes::Class;

// What stands behind so many characters.
fn from(cs: &[char], i: usize) -> &[char]
    requires { i ≤ length cs.now }
    ensures { result.now ≡ drop i cs.now }
{
    &cs[i..]
}

/// The characters of the class at the head, and what stands behind them.
#[tactic(auto, using(crate::proofs::Splits::front_here, crate::proofs::Splits::beyond_here, crate::proofs::Splits::to_end))]
pub fn split(cs: &[char], class: Class) -> (&[char], &[char])
    ensures front { result.0.now ≡ spec.front (class_test class) cs.now }
    ensures rest { result.1.now ≡ spec.beyond (class_test class) cs.now }
{
    for (i, c) in cs.iter().enumerate() {
        if !class.has(*c) {
            return (&cs[..i], from(cs, i));
        }
    }
    (cs, from(cs, cs.len()))
}

/// What stands behind the word, where the characters begin with it. The word is ASCII.
pub fn strip<'c>(cs: &'c [char], word: &[u8]) -> Option<&'c [char]>
    ensures { option_copied result ≡ spec.strip word.now cs.now }
{
    let mut rest = cs;
    for byte in word {
        match rest.split_first() {
            None => return None,
            Some((c, others)) => {
                if u32::from(*c) != u32::from(*byte) {
                    return None;
                }
                rest = others;
            }
        }
    }
    Some(rest)
}

/// What stands before the first occurrence of the word, and what stands behind it. The word is
/// ASCII and not empty.
pub fn until<'c>(cs: &'c [char], word: &[u8]) -> Option<(&'c [char], &'c [char])>
    ensures { seen_pair result ≡ spec.until word.now cs.now }
{
    for i in 0..cs.len() {
        if let Some(behind) = strip(from(cs, i), word) {
            return Some((&cs[..i], behind));
        }
    }
    None
}
