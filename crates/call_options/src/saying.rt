//! Whether words say an option.

ghost use Rattle.std.specs.Prelude.{◌≡◌, map, string_bytes};
ghost use Rattle.call_options.specs.Words as spec;

use command_words::ends_options;

/// Whether this is the name, or the name with `=` behind it and any value.
fn is_named(name: &[u8], bytes: &[u8]) -> bool
    ensures { result ≡ spec.is_named name.now bytes.now }
{
    let mut names = name;
    let mut rest = bytes;
    while let [byte, others @ ..] = names {
        match rest {
            [other, more @ ..] => {
                if *other != *byte {
                    return false;
                }
                names = others;
                rest = more;
            }
            [] => return false,
        }
    }
    match rest {
        [] => true,
        [byte, ..] => *byte == b'=',
    }
}

/// Whether the word is `--NAME` or `--NAME=VALUE`.
fn is_option(name: &[u8], word: &[u8]) -> bool
    ensures { result ≡ spec.is_option name.now word.now }
{
    match word {
        [] => false,
        [_] => false,
        [first, second, rest @ ..] => *first == b'-' && *second == b'-' && is_named(name, rest),
    }
}

/// Whether one of the words ahead of `--` is this option.
pub(crate) fn say(words: &[String], name: &str) -> bool
    ensures { result ≡ spec.say (map string_bytes words.now) name.now }
{
    let mut rest = words;
    while let Some((word, others)) = rest.split_first() {
        let word = word.as_str();
        if ends_options(word) {
            return false;
        }
        if is_option(name.as_bytes(), word.as_bytes()) {
            return true;
        }
        rest = others;
    }
    false
}
