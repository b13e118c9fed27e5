//! Behind `<`.

ghost use Rattle.std.specs.Prelude.{◌≡◌, codes, IfOk};
ghost use Rattle.page_steps.specs.DoctypeSteps.{begins};
ghost use Rattle.page_steps.specs.PageSteps as steps;
ghost use Rattle.opener_stepping.specs.Views as views;
ghost use Rattle.remark_stepping.specs.Views.{plain_move};

use open_pieces::{Characters, OpenDoctype, OpenPiece};
use page_rules::{begins_name, is_word};
use remark_stepping::PageMove;
use std::alloc::Global;
use text_base::NoMemory;

/// Behind `<` and maybe more of `<!--`, `<![CDATA[` or `<!DOCTYPE` (XML 1.0, 2.5, 2.7, 2.8 and
/// 3.1).
pub fn opener_move(alloc: Global, begun: &Characters, c: char) -> Result<PageMove, NoMemory>
    ensures { IfOk result (λ to. plain_move to ≡ steps.opener_move begun.now c) }
{
    match begun.as_slice() {
        [] => Ok(PageMove::Fail),
        [_] => less_move(alloc, c),
        [_, _, ..] => Ok(bang_move(begun.with(alloc, c)?)),
    }
}

// Directly behind `<`.
fn less_move(alloc: Global, c: char) -> Result<PageMove, NoMemory>
    ensures { IfOk result (λ to. plain_move to ≡ steps.less_move c) }
{
    if c == '!' {
        let begun = Characters::new(alloc).with(alloc, '<')?.with(alloc, '!')?;
        return Ok(PageMove::Go(OpenPiece::Opener(begun)));
    }
    if c == '?' {
        return Ok(PageMove::Go(OpenPiece::Target(Characters::new(alloc))));
    }
    if c == '/' {
        return Ok(PageMove::Go(OpenPiece::EndTag(Characters::new(alloc), false)));
    }
    if begins_name(c) {
        let name = Characters::new(alloc).with(alloc, c)?;
        Ok(PageMove::Go(OpenPiece::TagName(name)))
    } else {
        Ok(PageMove::Fail)
    }
}

// Behind `<!` and more.
fn bang_move(begun: Characters) -> PageMove
    ensures { plain_move result ≡ steps.bang_move begun }
{
    if is_word(begun.as_slice(), b"<!--") {
        return PageMove::Go(OpenPiece::Comment(0));
    }
    if is_word(begun.as_slice(), b"<![CDATA[") {
        return PageMove::Go(OpenPiece::Section(0));
    }
    if is_word(begun.as_slice(), b"<!DOCTYPE") {
        return PageMove::Go(OpenPiece::Doctype(OpenDoctype::BeforeRoot(false)));
    }
    if begins_opener(begun.as_slice()) {
        PageMove::Go(OpenPiece::Opener(begun))
    } else {
        PageMove::Fail
    }
}

fn begins_opener(cs: &[char]) -> bool
    ensures { result ≡ views.begins_opener cs.now }
{
    begins_comment(cs) || begins_section(cs) || begins_doctype(cs)
}

fn begins_comment(cs: &[char]) -> bool
    ensures { result ≡ begins (codes "<!--") cs.now }
{
    ['<', '!', '-', '-'].as_slice().starts_with(cs)
}

fn begins_section(cs: &[char]) -> bool
    ensures { result ≡ begins (codes "<![CDATA[") cs.now }
{
    ['<', '!', '[', 'C', 'D', 'A', 'T', 'A', '[']
        .as_slice()
        .starts_with(cs)
}

fn begins_doctype(cs: &[char]) -> bool
    ensures { result ≡ begins (codes "<!DOCTYPE") cs.now }
{
    ['<', '!', 'D', 'O', 'C', 'T', 'Y', 'P', 'E']
        .as_slice()
        .starts_with(cs)
}
