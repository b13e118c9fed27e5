//! Texts of XML's characters.

ghost use Rattle.std.specs.Prelude.{◌≡◌, IsTrue, ◌↔◌, chars};
ghost use Rattle.std.specs.List.{list_all};
ghost use Rattle.xml_text.specs.Characters as spec;
ghost use Rattle.xml_text.specs.Texts.{IsText};

use crate::classes::is_character;
use std::str;

/// Whether the bytes are the UTF-8 of characters of XML (XML 1.0, 2.2 and 4.3.3).
pub fn is_text(bytes: &[u8]) -> bool
    ensures { IsTrue result ↔ IsText bytes.now }
{
    match str::from_utf8(bytes) {
        Ok(text) => has_characters_alone(text),
        Err(_) => false,
    }
}

fn has_characters_alone(text: &str) -> bool
    ensures { result ≡ list_all spec.is_character (chars text.now) }
{
    for c in text.chars() {
        if !is_character(c) {
            return false;
        }
    }
    true
}
