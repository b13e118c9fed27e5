//! Texts that begin so.

ghost use Rattle.std.specs.Prelude.{◌≡◌};
ghost use Rattle.std.specs.Str.{str_to_ascii_lowercase};
ghost use Rattle.page_steps.specs.DoctypeSteps as steps;

/// Whether the characters are the first of the ASCII text.
pub fn begins(whole: &[u8], front: &[char]) -> bool
    ensures { result ≡ steps.begins whole.now front.now }
{
    let mut rest = whole;
    for c in front {
        match rest.split_first() {
            None => return false,
            Some((byte, others)) => {
                if u32::from(*c) != u32::from(*byte) {
                    return false;
                }
                rest = others;
            }
        }
    }
    true
}

/// Whether the characters, with their letters of ASCII in lower case, are the first of the ASCII
/// text.
pub fn begins_lowercased(whole: &[u8], front: &[char]) -> bool
    ensures { result ≡ steps.begins whole.now (str_to_ascii_lowercase front.now) }
{
    let mut rest = whole;
    for c in front {
        match rest.split_first() {
            None => return false,
            Some((byte, others)) => {
                if u32::from(c.to_ascii_lowercase()) != u32::from(*byte) {
                    return false;
                }
                rest = others;
            }
        }
    }
    true
}
