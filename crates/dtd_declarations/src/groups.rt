//! Groups of particles (XML 1.0, 3.2.1).

ghost use Rattle.std.specs.Prelude.{◌≡◌, ◌++◌, ◌∷◌, [], map, IfOk};
ghost use Rattle.dtd_declarations.specs.TokenViews.{token_of};
ghost use Rattle.dtd_model.specs.Table.{model_of, optional, any_number, at_least_one, children, one};
ghost use Rattle.dtd_texts.specs.ContentModels as spec;
ghost use Rattle.dtd_texts.specs.Tokens.{opening, closing, bar, comma};
ghost use Rattle.dtd_texts.specs.Went.{leads};
ghost use Rattle.dtd_declarations.specs.Views.{Gives, stage_of, groups_of, group_of, separator_of};

use crate::Token;
use crate::fault::Fault;
use crate::names::Names;
use crate::stage::{Group, Groups, Separator, Stage};
use dtd_model::{Content, Particle};
use std::alloc::Global;
use text_base::{Elem, NoMemory};

const BRACKET_LIMIT: usize = 200;

#[tactic(auto, using(dtd_model::proofs::Views::views))]
fn one(element: Elem) -> Particle
    ensures { model_of result ≡ one element.0 }
{
    Particle::One(element)
}

#[tactic(auto, using(dtd_model::proofs::Views::views))]
fn optional(alloc: Global, particle: Particle) -> Result<Particle, NoMemory>
    ensures { IfOk result (λ p. model_of p ≡ optional (model_of particle)) }
{
    Ok(Particle::Opt(Box::new(alloc, particle)?))
}

#[tactic(auto, using(dtd_model::proofs::Views::views))]
fn any_number(alloc: Global, particle: Particle) -> Result<Particle, NoMemory>
    ensures { IfOk result (λ p. model_of p ≡ any_number (model_of particle)) }
{
    Ok(Particle::Star(Box::new(alloc, particle)?))
}

#[tactic(auto, using(dtd_model::proofs::Views::views))]
fn at_least_one(alloc: Global, particle: Particle) -> Result<Particle, NoMemory>
    ensures { IfOk result (λ p. model_of p ≡ at_least_one (model_of particle)) }
{
    Ok(Particle::Plus(Box::new(alloc, particle)?))
}

// The particle of a group that is closed.
#[tactic(auto, using(dtd_model::proofs::Views::views, crate::proofs::Models::models_are))]
fn particle_of(group: Group) -> Particle
    ensures { model_of result
        ≡ spec.group_model (separator_of group.separator)
        (spec.all_models (map model_of group.parts.items)) }
{
    match group.separator {
        Separator::Unknown => Particle::Seq(group.parts),
        Separator::ByBar => Particle::Alt(group.parts),
        Separator::ByComma => Particle::Seq(group.parts),
    }
}

fn new_group(alloc: Global) -> Group
    ensures { group_of result ≡ spec.new_group }
{
    Group {
        separator: Separator::Unknown,
        parts: Vec::new(alloc),
    }
}

/// The first bracket.
pub fn first_group(alloc: Global) -> Groups
    ensures { groups_of result ≡ spec.new_group ∷ [] }
{
    Groups {
        inner: new_group(alloc),
        outer: Vec::new(alloc),
    }
}

// The inner group with one particle more.
fn put(mut groups: Groups, particle: Particle) -> Result<Groups, NoMemory>
    ensures { IfOk result (λ g. groups_of g ≡ spec.put (model_of particle) (groups_of groups)) }
{
    groups.inner.parts.push(particle)?;
    Ok(groups)
}

// One bracket more.
fn open(alloc: Global, groups: Groups) -> Result<Groups, NoMemory>
    ensures { IfOk result (λ g. groups_of g ≡ spec.new_group ∷ groups_of groups) }
{
    let Groups { inner, mut outer } = groups;
    outer.push(inner)?;
    Ok(Groups {
        inner: new_group(alloc),
        outer,
    })
}

fn opened(alloc: Global, groups: Groups) -> Result<Stage, Fault>
    ensures { Gives stage_of result (spec.particle_step [] (groups_of groups) opening) }
{
    if groups.outer.len() + 1 < BRACKET_LIMIT {
        Ok(Stage::AtParticle(open(alloc, groups)?))
    } else {
        Err(Fault::TooDeep)
    }
}

/// Where a particle is due.
#[tactic(auto, using(crate::proofs::Passing::passed_on))]
pub fn particle_step(
    alloc: Global,
    names: &Names,
    groups: Groups,
    token: &Token<'_>,
) -> Result<Stage, Fault>
    ensures { Gives stage_of result
        (spec.particle_step names.now (groups_of groups) (token_of token.now)) }
{
    match token {
        Token::Gap => Ok(Stage::AtParticle(groups)),
        Token::Word(word) => match names.element(alloc, word) {
            Ok(element) => Ok(Stage::OnParticle(groups, one(element))),
            Err(fault) => Err(fault),
        },
        Token::Opening => opened(alloc, groups),
        _ => Err(Fault::Refused),
    }
}

fn with_bar(mut groups: Groups) -> Result<Stage, Fault>
    ensures { Gives stage_of result (spec.behind_step (groups_of groups) bar) }
{
    match groups.inner.separator {
        Separator::Unknown => {
            groups.inner.separator = Separator::ByBar;
            Ok(Stage::AtParticle(groups))
        }
        Separator::ByBar => Ok(Stage::AtParticle(groups)),
        Separator::ByComma => Err(Fault::Refused),
    }
}

fn with_comma(mut groups: Groups) -> Result<Stage, Fault>
    ensures { Gives stage_of result (spec.behind_step (groups_of groups) comma) }
{
    match groups.inner.separator {
        Separator::Unknown => {
            groups.inner.separator = Separator::ByComma;
            Ok(Stage::AtParticle(groups))
        }
        Separator::ByBar => Err(Fault::Refused),
        Separator::ByComma => Ok(Stage::AtParticle(groups)),
    }
}

fn close(groups: Groups) -> Stage
    ensures { leads (stage_of result) ≡ spec.behind_step (groups_of groups) closing }
{
    let Groups { inner, mut outer } = groups;
    let particle = particle_of(inner);
    match outer.pop() {
        None => Stage::BehindGroup(particle),
        Some(inner) => Stage::OnParticle(Groups { inner, outer }, particle),
    }
}

/// Behind a particle that is put into its group.
pub fn behind_step(groups: Groups, token: &Token<'_>) -> Result<Stage, Fault>
    ensures { Gives stage_of result (spec.behind_step (groups_of groups) (token_of token.now)) }
{
    match token {
        Token::Gap => Ok(Stage::BehindParticle(groups)),
        Token::Bar => with_bar(groups),
        Token::Comma => with_comma(groups),
        Token::Closing => Ok(close(groups)),
        _ => Err(Fault::Refused),
    }
}

/// Directly behind a particle.
pub fn on_step(
    alloc: Global,
    groups: Groups,
    particle: Particle,
    token: &Token<'_>,
) -> Result<Stage, Fault>
    ensures { Gives stage_of result
        (spec.on_step (groups_of groups) (model_of particle) (token_of token.now)) }
{
    match token {
        Token::Question => Ok(Stage::BehindParticle(put(groups, optional(alloc, particle)?)?)),
        Token::Star => Ok(Stage::BehindParticle(put(groups, any_number(alloc, particle)?)?)),
        Token::Plus => Ok(Stage::BehindParticle(put(groups, at_least_one(alloc, particle)?)?)),
        _ => behind_step(put(groups, particle)?, token),
    }
}

/// Behind the last bracket.
pub fn group_step(alloc: Global, particle: Particle, token: &Token<'_>) -> Result<Stage, Fault>
    ensures { Gives stage_of result (spec.group_step (model_of particle) (token_of token.now)) }
{
    match token {
        Token::Question => Ok(Stage::Done(Content::Children(optional(alloc, particle)?))),
        Token::Star => Ok(Stage::Done(Content::Children(any_number(alloc, particle)?))),
        Token::Plus => Ok(Stage::Done(Content::Children(at_least_one(alloc, particle)?))),
        Token::Gap => Ok(Stage::Done(Content::Children(particle))),
        _ => Err(Fault::Refused),
    }
}
