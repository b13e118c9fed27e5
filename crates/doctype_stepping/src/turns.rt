//! One character more.

ghost use Rattle.std.specs.Prelude.{◌≡◌, IfOk};
ghost use Rattle.page_steps.specs.DoctypeSteps as steps;
ghost use Rattle.page_model.specs.OpenDoctypes as doctype;
ghost use Rattle.open_pieces.specs.Views.{plain_doctype, plain_word};
ghost use Rattle.doctype_stepping.specs.Views.{plain_turn, before_next, behind_public_next, system_next, behind_system_next};

use crate::literals::{free_turn, kept_turn, literal_turn};
use crate::turn::DoctypeTurn;
use crate::words::{begins_root, is_free, may_begin};
use dtd_model::DoctypeRule;
use open_pieces::{Characters, DoctypeWord, OpenDoctype};
use page_rules::{is_blank, is_quote, is_word};
use std::alloc::Global;
use text_base::NoMemory;

/// One character more in a document type declaration, behind `<!DOCTYPE` (XML 1.0, 2.8; XHTML 1.0,
/// 3.1.1).
pub fn doctype_turn(
    alloc: Global,
    rule: DoctypeRule,
    inside: &OpenDoctype,
    c: char,
) -> Result<DoctypeTurn, NoMemory>
    ensures { IfOk result
        (λ turn. plain_turn turn ≡ steps.doctype_turn rule (plain_doctype inside.now) c) }
{
    match inside {
        OpenDoctype::BeforeRoot(is_spaced) => before_turn(alloc, *is_spaced, c),
        OpenDoctype::Root(name) => name_turn(alloc, rule, name, c),
        OpenDoctype::BehindRoot => behind_turn(alloc, rule, c),
        OpenDoctype::Word(word) => word_turn(alloc, rule, word, c),
        OpenDoctype::BehindWord(word) => Ok(behind_word_turn(alloc, rule, *word, c)),
        OpenDoctype::FreePublic(quote) => Ok(free_turn(*quote, c)),
        OpenDoctype::KeptPublic(quote, text) => kept_turn(alloc, *quote, text, c),
        OpenDoctype::BehindPublic(is_spaced) => Ok(behind_public_turn(*is_spaced, c)),
        OpenDoctype::System(quote) => Ok(system_turn(*quote, c)),
        OpenDoctype::BehindSystem => Ok(behind_system_turn(c)),
    }
}

// The declaration may end with the character.
fn end_turn(may: bool, c: char) -> DoctypeTurn
    ensures { plain_turn result ≡ steps.end_turn may c }
{
    if c == '>' && may {
        DoctypeTurn::Out
    } else {
        DoctypeTurn::Stop
    }
}

fn root_turn(rule: DoctypeRule, c: char) -> DoctypeTurn
    ensures { plain_turn result ≡ steps.root_turn rule c }
{
    if is_blank(c) {
        DoctypeTurn::On(OpenDoctype::BehindRoot)
    } else {
        end_turn(is_free(rule), c)
    }
}

fn before_turn(alloc: Global, is_spaced: bool, c: char) -> Result<DoctypeTurn, NoMemory>
    ensures { IfOk result (λ turn. plain_turn turn ≡ before_next is_spaced c) }
{
    if is_blank(c) {
        return Ok(DoctypeTurn::On(OpenDoctype::BeforeRoot(true)));
    }
    if c == 'h' && is_spaced {
        let name = Characters::new(alloc).with(alloc, 'h')?;
        Ok(DoctypeTurn::On(OpenDoctype::Root(name)))
    } else {
        Ok(DoctypeTurn::Stop)
    }
}

fn name_turn(
    alloc: Global,
    rule: DoctypeRule,
    name: &Characters,
    c: char,
) -> Result<DoctypeTurn, NoMemory>
    ensures { IfOk result
        (λ turn. plain_turn turn ≡ steps.doctype_turn rule (doctype.in_root name.now) c) }
{
    let more = name.with(alloc, c)?;
    if begins_root(more.as_slice()) {
        return Ok(DoctypeTurn::On(OpenDoctype::Root(more)));
    }
    if is_word(name.as_slice(), b"html") {
        Ok(root_turn(rule, c))
    } else {
        Ok(DoctypeTurn::Stop)
    }
}

fn behind_turn(alloc: Global, rule: DoctypeRule, c: char) -> Result<DoctypeTurn, NoMemory>
    ensures { IfOk result (λ turn. plain_turn turn ≡ steps.doctype_turn rule doctype.behind_root c) }
{
    let word = Characters::new(alloc).with(alloc, c)?;
    if may_begin(rule, word.as_slice()) {
        Ok(DoctypeTurn::On(OpenDoctype::Word(word)))
    } else {
        Ok(root_turn(rule, c))
    }
}

fn word_turn(
    alloc: Global,
    rule: DoctypeRule,
    word: &Characters,
    c: char,
) -> Result<DoctypeTurn, NoMemory>
    ensures { IfOk result (λ turn. plain_turn turn ≡ steps.word_turn rule word.now c) }
{
    let more = word.with(alloc, c)?;
    if may_begin(rule, more.as_slice()) {
        return Ok(DoctypeTurn::On(OpenDoctype::Word(more)));
    }
    if is_word(word.as_slice(), b"PUBLIC") && is_blank(c) {
        return Ok(DoctypeTurn::On(OpenDoctype::BehindWord(DoctypeWord::Public)));
    }
    if is_word(word.as_slice(), b"SYSTEM") && is_blank(c) {
        return Ok(DoctypeTurn::On(OpenDoctype::BehindWord(DoctypeWord::System)));
    }
    Ok(DoctypeTurn::Stop)
}

fn behind_word_turn(alloc: Global, rule: DoctypeRule, word: DoctypeWord, c: char) -> DoctypeTurn
    ensures { plain_turn result
        ≡ steps.doctype_turn rule (doctype.behind_word (plain_word word)) c }
{
    if is_blank(c) {
        return DoctypeTurn::On(OpenDoctype::BehindWord(word));
    }
    if is_quote(c) {
        literal_turn(alloc, rule, word, c)
    } else {
        DoctypeTurn::Stop
    }
}

fn behind_public_turn(is_spaced: bool, c: char) -> DoctypeTurn
    ensures { plain_turn result ≡ behind_public_next is_spaced c }
{
    if is_blank(c) {
        return DoctypeTurn::On(OpenDoctype::BehindPublic(true));
    }
    if is_quote(c) && is_spaced {
        DoctypeTurn::On(OpenDoctype::System(c))
    } else {
        DoctypeTurn::Stop
    }
}

fn system_turn(quote: char, c: char) -> DoctypeTurn
    ensures { plain_turn result ≡ system_next quote c }
{
    if c == quote {
        DoctypeTurn::On(OpenDoctype::BehindSystem)
    } else {
        DoctypeTurn::On(OpenDoctype::System(quote))
    }
}

fn behind_system_turn(c: char) -> DoctypeTurn
    ensures { plain_turn result ≡ behind_system_next c }
{
    if is_blank(c) {
        DoctypeTurn::On(OpenDoctype::BehindSystem)
    } else {
        end_turn(true, c)
    }
}
