//! The literals of a document type declaration.

ghost use Rattle.std.specs.Prelude.{◌≡◌, IfOk, Some, None};
ghost use Rattle.page_steps.specs.DoctypeSteps as steps;
ghost use Rattle.open_pieces.specs.Views.{plain_word};
ghost use Rattle.doctype_stepping.specs.Views.{plain_turn, wanted_turn};

use crate::turn::DoctypeTurn;
use dtd_model::DoctypeRule;
use open_pieces::{Characters, DoctypeWord, OpenDoctype};
use page_rules::{in_public_identifier, is_word};
use std::alloc::Global;
use text_base::NoMemory;

/// The quote of the literal behind the word. Takes no memory.
pub fn literal_turn(alloc: Global, rule: DoctypeRule, word: DoctypeWord, quote: char) -> DoctypeTurn
    ensures { plain_turn result ≡ steps.literal_turn rule (plain_word word) quote }
{
    match (word, rule) {
        (DoctypeWord::System, _) => DoctypeTurn::On(OpenDoctype::System(quote)),
        (DoctypeWord::Public, DoctypeRule::Strict) => {
            DoctypeTurn::On(OpenDoctype::KeptPublic(quote, Characters::new(alloc)))
        }
        (DoctypeWord::Public, DoctypeRule::Free) => {
            DoctypeTurn::On(OpenDoctype::FreePublic(quote))
        }
    }
}

/// In a public literal that the definition does not name.
pub fn free_turn(quote: char, c: char) -> DoctypeTurn
    ensures { plain_turn result ≡ steps.public_turn quote None c }
{
    if c == quote {
        return DoctypeTurn::On(OpenDoctype::BehindPublic(false));
    }
    if in_public_identifier(c) {
        DoctypeTurn::On(OpenDoctype::FreePublic(quote))
    } else {
        DoctypeTurn::Stop
    }
}

/// In a public literal that the definition names.
pub fn kept_turn(
    alloc: Global,
    quote: char,
    text: &Characters,
    c: char,
) -> Result<DoctypeTurn, NoMemory>
    ensures { IfOk result (λ turn. plain_turn turn ≡ steps.public_turn quote (Some text.now) c) }
{
    if c == quote {
        return Ok(kept_end(text));
    }
    if !in_public_identifier(c) {
        return Ok(DoctypeTurn::Stop);
    }
    let more = text.with(alloc, c)?;
    Ok(DoctypeTurn::On(OpenDoctype::KeptPublic(quote, more)))
}

fn kept_end(text: &Characters) -> DoctypeTurn
    ensures { plain_turn result ≡ wanted_turn text.now }
{
    if is_word(text.as_slice(), b"-//W3C//DTD XHTML 1.0 Strict//EN") {
        DoctypeTurn::On(OpenDoctype::BehindPublic(false))
    } else {
        DoctypeTurn::Stop
    }
}
