//! Text and elements (XML 1.0, 3.2.2, Mixed).

ghost use Rattle.std.specs.Prelude.{◌≡◌, ◌++◌, ◌∷◌, [], IfOk};
ghost use Rattle.dtd_declarations.specs.TokenViews.{token_of};
ghost use Rattle.dtd_texts.specs.ContentModels as spec;
ghost use Rattle.dtd_declarations.specs.Views.{Gives, stage_of, numbers_of};

use crate::Token;
use crate::fault::Fault;
use crate::names::Names;
use crate::stage::Stage;
use dtd_model::Content;
use std::alloc::Global;
use text_base::{Elem, NoMemory};

/// Behind `(#`.
pub fn text_step(alloc: Global, token: &Token<'_>) -> Result<Stage, Fault>
    ensures { Gives stage_of result (spec.text_step (token_of token.now)) }
{
    match token {
        Token::Word(word) => {
            if *word == b"PCDATA".as_slice() {
                Ok(Stage::BehindText(Vec::new(alloc)))
            } else {
                Err(Fault::Refused)
            }
        }
        _ => Err(Fault::Refused),
    }
}

/// Behind text or an element.
pub fn behind_text_step(elements: Vec<Elem>, token: &Token<'_>) -> Result<Stage, Fault>
    ensures { Gives stage_of result
        (spec.behind_text_step (numbers_of elements.items) (token_of token.now)) }
{
    match token {
        Token::Gap => Ok(Stage::BehindText(elements)),
        Token::Bar => Ok(Stage::AtElement(elements)),
        Token::Closing => Ok(Stage::BehindMixed(elements)),
        _ => Err(Fault::Refused),
    }
}

// The elements with one more.
fn with_element(mut elements: Vec<Elem>, element: Elem) -> Result<Vec<Elem>, NoMemory>
    ensures { IfOk result (λ es. numbers_of es.items ≡ numbers_of elements.items ++ element.0 ∷ []) }
{
    elements.push(element)?;
    Ok(elements)
}

/// Behind a bar.
#[tactic(auto, using(crate::proofs::Passing::passed_on))]
pub fn element_step(
    alloc: Global,
    names: &Names,
    elements: Vec<Elem>,
    token: &Token<'_>,
) -> Result<Stage, Fault>
    ensures { Gives stage_of result
        (spec.element_step names.now (numbers_of elements.items) (token_of token.now)) }
{
    match token {
        Token::Gap => Ok(Stage::AtElement(elements)),
        Token::Word(word) => match names.element(alloc, word) {
            Ok(element) => Ok(Stage::BehindText(with_element(elements, element)?)),
            Err(fault) => Err(fault),
        },
        _ => Err(Fault::Refused),
    }
}

/// Behind the closing bracket.
pub fn mixed_step(elements: Vec<Elem>, token: &Token<'_>) -> Result<Stage, Fault>
    ensures { Gives stage_of result
        (spec.mixed_step (numbers_of elements.items) (token_of token.now)) }
{
    match token {
        Token::Star => Ok(Stage::Done(Content::Mixed(elements))),
        Token::Gap => {
            if elements.is_empty() {
                Ok(Stage::Done(Content::Mixed(elements)))
            } else {
                Err(Fault::Refused)
            }
        }
        _ => Err(Fault::Refused),
    }
}
