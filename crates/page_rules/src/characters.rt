//! Tests of characters in a row.

ghost use Rattle.std.specs.Prelude.{◌≡◌};
ghost use Rattle.std.specs.List.{list_all};
ghost use Rattle.xml_text.specs.Characters as characters;
ghost use Rattle.page_model.specs.Parts as parts;

use crate::is_blank;
use xml_text::is_character;

/// Whether these are characters of XML alone.
pub fn are_characters(cs: &[char]) -> bool
    ensures { result ≡ list_all characters.is_character cs.now }
{
    cs.iter().all(|c| is_character(*c))
}

/// Whether there is nothing, or white space first.
pub fn begins_blank(cs: &[char]) -> bool
    ensures { result ≡ parts.begins_blank cs.now }
{
    match cs {
        [] => true,
        [first, ..] => is_blank(*first),
    }
}

/// Whether these may stand between such quotes (XML 1.0, 2.3, AttValue), references aside.
pub fn may_be_quoted(quote: char, cs: &[char]) -> bool
    ensures { result ≡ list_all (parts.may_be_quoted quote) cs.now }
{
    cs.iter()
        .all(|c| is_character(*c) && !(*c == '<' || *c == quote))
}
