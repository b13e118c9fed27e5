//! The declarations of entities (XML 1.0, 4.2).

ghost use Rattle.std.specs.Prelude.{◌≡◌, IfOk, MatchOption, true, false};
ghost use Rattle.std.specs.Str.{is_utf8};
ghost use Rattle.std.specs.List.{list_all};
ghost use Rattle.xml_text.specs.Names as names;
ghost use Rattle.dtd_declarations.specs.TokenViews.{tokens_of, found};
ghost use Rattle.dtd_texts.specs.Places as spec;
ghost use Rattle.dtd_texts.specs.Tokens as rows;
ghost use Rattle.dtd_entities.specs.Entities.{entity_by, named_of, entity_in, ending_of};

use dtd_declarations::{
    Found, Token, are_none, behind_gap, first_word, is_end, is_percent_sign, next_literal,
    next_word,
};
use std::str;
use xml_text::{in_public_identifier, is_name};

/// An entity that a declaration is of, and the tokens behind its name.
#[derive(Clone, Copy, Debug)]
pub struct Named<'a, 'b> {
    /// A parameter entity, or else a general one.
    pub is_parameter: bool,
    pub name: &'a [u8],
    pub rest: &'b [Token<'a>],
}

/// What a declaration of an entity without a value comes to.
#[derive(Clone, Copy, Debug)]
pub enum Ending<'a> {
    /// It declares the parameter entity of this name, whose text is the file of that name.
    Declares(&'a [u8], &'a str),
    LeavesOut,
    Refuses,
}

fn entity_if<'a, 'b>(is_parameter: bool, word: Option<Found<'a, 'b>>) -> Option<Named<'a, 'b>>
    ensures { named_of result ≡ spec.named (entity_by is_parameter) (found word.entry) }
{
    match word {
        Some((name, rest)) => {
            if is_name(name) {
                Some(Named {
                    is_parameter,
                    name,
                    rest,
                })
            } else {
                None
            }
        }
        None => None,
    }
}

fn entity_from<'a, 'b>(tokens: &'b [Token<'a>]) -> Option<Named<'a, 'b>>
    ensures { named_of result ≡ spec.entity_from (tokens_of tokens.now) }
{
    match tokens.split_first() {
        Some((first, others)) => {
            if is_percent_sign(first) {
                entity_if(true, next_word(others))
            } else {
                entity_if(false, first_word(tokens))
            }
        }
        None => None,
    }
}

// The entity that the declaration is of.
#[tactic(auto, unfolding(dtd_texts::specs::Places::entity_of))]
fn entity_of<'a, 'b>(tokens: &'b [Token<'a>]) -> Option<Named<'a, 'b>>
    ensures { named_of result ≡ spec.entity_of (tokens_of tokens.now) }
{
    match first_word(tokens) {
        Some((word, rest)) => {
            if word != b"ENTITY".as_slice() {
                return None;
            }
            match behind_gap(rest) {
                Some(others) => entity_from(others),
                None => None,
            }
        }
        None => None,
    }
}

/// The entity whose value comes next.
pub fn valued<'a, 'b>(tokens: &'b [Token<'a>]) -> Option<Named<'a, 'b>>
    ensures { entity_in result ≡ spec.value_of (spec.entity_of (tokens_of tokens.now)) }
{
    match entity_of(tokens) {
        Some(entity) => {
            if is_end(entity.rest) && !are_none(entity.rest) {
                Some(entity)
            } else {
                None
            }
        }
        None => None,
    }
}

// The bytes as a text, where they are UTF-8.
fn as_text(bytes: &[u8]) -> Option<&str>
    ensures { MatchOption result (is_utf8 bytes.now ≡ false)
        (λ text. (text.now ≡ bytes.now) × (is_utf8 bytes.now ≡ true)) }
{
    match str::from_utf8(bytes) {
        Ok(text) => Some(text),
        Err(_) => None,
    }
}

fn is_public_identifier(text: &[u8]) -> bool
    ensures { result ≡ list_all names.in_public_identifier text.now }
{
    text.iter().all(|byte| in_public_identifier(*byte))
}

fn outside_of<'a>(name: &'a [u8], system: Option<Found<'a, '_>>) -> Ending<'a>
    ensures { ending_of result ≡ spec.outside_of name.now (found system.entry) }
{
    match system {
        Some((system, rest)) => {
            match as_text(system) {
                Some(system) => {
                    if is_end(rest) {
                        Ending::Declares(name, system)
                    } else {
                        Ending::Refuses
                    }
                }
                None => Ending::Refuses,
            }
        }
        None => Ending::Refuses,
    }
}

fn public_of<'a>(name: &'a [u8], identifier: Option<Found<'a, '_>>) -> Ending<'a>
    ensures { ending_of result ≡ spec.public_of name.now (found identifier.entry) }
{
    match identifier {
        Some((identifier, rest)) => {
            if is_public_identifier(identifier) {
                outside_of(name, next_literal(rest))
            } else {
                Ending::Refuses
            }
        }
        None => Ending::Refuses,
    }
}

fn identified<'a>(is_parameter: bool, name: &'a [u8], word: Option<Found<'a, '_>>) -> Ending<'a>
    ensures { ending_of result
        ≡ spec.identified (entity_by is_parameter name.now) (found word.entry) }
{
    match word {
        Some((word, rest)) => {
            let is_system = word == b"SYSTEM".as_slice();
            let is_public = word == b"PUBLIC".as_slice();
            if !is_system && !is_public {
                Ending::Refuses
            } else if !is_parameter {
                Ending::LeavesOut
            } else if is_system {
                outside_of(name, next_literal(rest))
            } else {
                public_of(name, next_literal(rest))
            }
        }
        None => Ending::Refuses,
    }
}

/// What the declaration of an entity without a value comes to.
#[tactic(auto, unfolding(dtd_texts::specs::Places::external_step))]
pub fn external<'a>(tokens: &[Token<'a>]) -> Ending<'a>
    ensures { ending_of result ≡ spec.external_step (tokens_of tokens.now) }
{
    match entity_of(tokens) {
        Some(entity) => identified(entity.is_parameter, entity.name, next_word(entity.rest)),
        None => Ending::Refuses,
    }
}

/// Whether the tokens are those of the declaration of an entity.
pub fn is_entity(tokens: &[Token<'_>]) -> bool
    ensures { result ≡ spec.is_entity (rows.first_word (tokens_of tokens.now)) }
{
    match first_word(tokens) {
        Some((word, _)) => word == b"ENTITY".as_slice(),
        None => false,
    }
}
