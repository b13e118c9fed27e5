//! The first place of a pattern in a text.

ghost use Rattle.std.specs.Prelude.{◌≡◌, ◌+◌, ◌<◌, ◌≤◌, length, IfSome};
ghost use Rattle.string_functions.specs.Failure.{AreFailures};
ghost use Rattle.string_functions.specs.Place.{first_place};

use crate::failure::next_part;

/// The first place where the pattern stands in the text, if it stands there. Takes time linear in
/// the bytes up to the end of what is found.
pub fn find(pattern: &[u8], failures: &[usize], text: &[u8]) -> Option<usize>
    requires pattern { 0 < length pattern.now }
    requires failures { AreFailures pattern.now failures.now (length pattern.now) }
    ensures place { result ≡ first_place pattern.now text.now }
    ensures within { IfSome result (λ at. at + length pattern.now ≤ length text.now) }
{
    let mut part: usize = 0;
    for at in 0..text.len() {
        part = next_part(pattern, failures, part, text[at]);
        if part == pattern.len() {
            return Some(at + 1 - part);
        }
    }
    None
}
