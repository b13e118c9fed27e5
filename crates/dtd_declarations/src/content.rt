//! What an element may hold (XML 1.0, 3.2).

ghost use Rattle.std.specs.Prelude.{◌≡◌};
ghost use Rattle.dtd_declarations.specs.TokenViews.{token_of, tokens_of};
ghost use Rattle.dtd_model.specs.Table.{holding_of};
ghost use Rattle.dtd_texts.specs.ContentModels as spec;
ghost use Rattle.dtd_declarations.specs.Views.{Gives, stage_of};

use crate::Token;
use crate::fault::Fault;
use crate::groups::{behind_step, first_group, group_step, on_step, particle_step};
use crate::mixed::{behind_text_step, element_step, mixed_step, text_step};
use crate::names::Names;
use crate::stage::Stage;
use dtd_model::Content;
use std::alloc::Global;

fn name_step(token: &Token<'_>) -> Result<Stage, Fault>
    ensures { Gives stage_of result (spec.name_step (token_of token.now)) }
{
    match token {
        Token::Gap => Ok(Stage::AtContent),
        _ => Err(Fault::Refused),
    }
}

fn content_step(token: &Token<'_>) -> Result<Stage, Fault>
    ensures { Gives stage_of result (spec.content_step (token_of token.now)) }
{
    match token {
        Token::Word(word) => {
            if *word == b"EMPTY".as_slice() {
                Ok(Stage::Done(Content::Empty))
            } else if *word == b"ANY".as_slice() {
                Ok(Stage::Done(Content::Any))
            } else {
                Err(Fault::Refused)
            }
        }
        Token::Opening => Ok(Stage::AtFirst),
        _ => Err(Fault::Refused),
    }
}

fn first_step(alloc: Global, names: &Names, token: &Token<'_>) -> Result<Stage, Fault>
    ensures { Gives stage_of result (spec.first_step names.now (token_of token.now)) }
{
    match token {
        Token::Gap => Ok(Stage::AtFirst),
        Token::Hash => Ok(Stage::AtText),
        _ => particle_step(alloc, names, first_group(alloc), token),
    }
}

fn done_step(content: Content, token: &Token<'_>) -> Result<Stage, Fault>
    ensures { Gives stage_of result (spec.done_step (holding_of content) (token_of token.now)) }
{
    match token {
        Token::Gap => Ok(Stage::Done(content)),
        _ => Err(Fault::Refused),
    }
}

// What a token leads to.
fn step(alloc: Global, names: &Names, stage: Stage, token: &Token<'_>) -> Result<Stage, Fault>
    ensures { Gives stage_of result
        (spec.stage_step names.now (stage_of stage) (token_of token.now)) }
{
    match stage {
        Stage::BehindName => name_step(token),
        Stage::AtContent => content_step(token),
        Stage::AtFirst => first_step(alloc, names, token),
        Stage::AtText => text_step(alloc, token),
        Stage::BehindText(elements) => behind_text_step(elements, token),
        Stage::AtElement(elements) => element_step(alloc, names, elements, token),
        Stage::BehindMixed(elements) => mixed_step(elements, token),
        Stage::AtParticle(groups) => particle_step(alloc, names, groups, token),
        Stage::OnParticle(groups, particle) => on_step(alloc, groups, particle, token),
        Stage::BehindParticle(groups) => behind_step(groups, token),
        Stage::BehindGroup(particle) => group_step(alloc, particle, token),
        Stage::Done(content) => done_step(content, token),
    }
}

// Where the tokens end.
fn end(stage: Stage) -> Result<Content, Fault>
    ensures { Gives holding_of result (spec.stage_end (stage_of stage)) }
{
    match stage {
        Stage::Done(content) => Ok(content),
        Stage::BehindGroup(particle) => Ok(Content::Children(particle)),
        Stage::BehindMixed(elements) => {
            if elements.is_empty() {
                Ok(Content::Mixed(elements))
            } else {
                Err(Fault::Refused)
            }
        }
        _ => Err(Fault::Refused),
    }
}

/// What an element may hold, by the tokens behind its name in its declaration.
///
/// # Errors
///
/// As the tokens go wrong: `Refused`, `TooDeep` with over 200 open brackets, `Undeclared` where
/// they name an element that is not declared; and `Memory`.
pub fn content_of(alloc: Global, names: &Names, tokens: &[Token<'_>]) -> Result<Content, Fault>
    ensures { Gives holding_of result (spec.content_of names.now (tokens_of tokens.now)) }
{
    let mut stage = Stage::BehindName;
    for token in tokens {
        stage = match step(alloc, names, stage, token) {
            Ok(next) => next,
            Err(fault) => return Err(fault),
        };
    }
    end(stage)
}
