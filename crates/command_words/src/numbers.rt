//! Numbers in words.

ghost use Rattle.std.specs.Prelude.{◌≡◌, option_map};
ghost use Rattle.std.specs.List.{list_all};
ghost use Rattle.command_words.specs.Asked as spec;

fn is_digit(byte: u8) -> bool
    ensures { result ≡ spec.is_digit byte }
{
    byte > 47 && byte < 58
}

fn are_digits(text: &[u8]) -> bool
    ensures { result ≡ list_all spec.is_digit text.now }
{
    text.iter().all(|byte| is_digit(*byte))
}

/// The number that one to eight decimal digits write that are not all 0.
pub(crate) fn number_of(text: &str) -> Option<u32>
    ensures { result ≡ spec.number_of text.now }
{
    if text.len() > 8 || !are_digits(text.as_bytes()) {
        return None;
    }
    match text.parse::<u32>() {
        Ok(0) => None,
        Ok(number) => Some(number),
        Err(_) => None,
    }
}

/// The number of an option, or the one that is meant where it is left out.
pub(crate) fn number_or(usual: u32, word: Option<&str>) -> Option<u32>
    ensures { result ≡ spec.number_or usual (option_map (λ text. text.now) word.entry) }
{
    match word {
        None => Some(usual),
        Some(text) => number_of(text),
    }
}
