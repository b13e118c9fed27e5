//! Tokens of pages as words.

use byte_readers::Emit;
use text_base::{Bytes, Elem, NoMemory, PageToken};

/// Puts the tokens behind the words, each as a word and a space.
pub fn push_words(words: &mut Bytes, emit: Emit) -> Result<(), NoMemory> {
    match emit {
        Emit::Nothing => Ok(()),
        Emit::One(token) => push_word(words, token),
        Emit::Two(first, second) => {
            push_word(words, first)?;
            push_word(words, second)
        }
    }
}

/// Puts a token behind the words, as a word and a space.
pub fn push_word(words: &mut Bytes, token: PageToken) -> Result<(), NoMemory> {
    match token {
        PageToken::Doctype => words.append(b"doctype "),
        PageToken::Start(element) => push_tag(words, b"<", element),
        PageToken::End(element) => push_tag(words, b"/", element),
        PageToken::Blank => words.append(b"_ "),
        PageToken::Text => words.append(b"text "),
        PageToken::Misc => words.append(b"misc "),
        PageToken::Bad => words.append(b"bad "),
    }
}

fn push_tag(words: &mut Bytes, sign: &[u8], element: Elem) -> Result<(), NoMemory> {
    words.append(sign)?;
    words.append(name_of(element))
}

fn name_of(element: Elem) -> &'static [u8] {
    match element.0 {
        0 => b"html ",
        1 => b"body ",
        2 => b"p ",
        3 => b"br ",
        _ => b"other ",
    }
}
