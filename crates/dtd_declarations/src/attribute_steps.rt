//! The steps through an attribute list (XML 1.0, 3.3).

ghost use Rattle.std.specs.Prelude.{◌≡◌, ◌++◌, ◌∷◌, [], map, IfOk, List, if◌then◌else◌};
ghost use Rattle.dtd_declarations.specs.TokenViews.{token_of, tokens_of};
ghost use Rattle.dtd_model.specs.Table.{kind_of, presence_of, declared_of, Declared};
ghost use Rattle.dtd_texts.specs.Tokens.{is_gap};
ghost use Rattle.dtd_texts.specs.Went.{Went, leads, refused};
ghost use Rattle.dtd_texts.specs.AttributeLists as spec;
ghost use Rattle.dtd_declarations.specs.Views.{Gives, at_place, reading_of};

use crate::attribute_stage::{Place, Reading};
use crate::fault::Fault;
use crate::{Token, is_attribute_value};
use dtd_model::{AttrKind, AttrRule, Need};
use std::alloc::Global;
use text_base::{Bytes, NoMemory};
use xml_text::is_name;

// The type that a word stands for.
#[tactic(auto, unfolding(dtd_texts::specs::AttributeLists::kind_named))]
fn kind_named(word: &[u8]) -> Result<AttrKind, Fault>
    ensures { Gives kind_of result (spec.kind_named word.now) }
{
    if word == b"CDATA".as_slice() {
        Ok(AttrKind::Cdata)
    } else if word == b"ID".as_slice() {
        Ok(AttrKind::Id)
    } else if word == b"IDREF".as_slice() {
        Ok(AttrKind::Idref)
    } else if word == b"IDREFS".as_slice() {
        Ok(AttrKind::Idrefs)
    } else if word == b"NMTOKEN".as_slice() {
        Ok(AttrKind::Nmtoken)
    } else if word == b"NMTOKENS".as_slice() {
        Ok(AttrKind::Nmtokens)
    } else if word == b"ENTITY".as_slice() {
        Err(Fault::LeftOut)
    } else if word == b"ENTITIES".as_slice() {
        Err(Fault::LeftOut)
    } else if word == b"NOTATION".as_slice() {
        Err(Fault::LeftOut)
    } else {
        Err(Fault::Refused)
    }
}

fn name_step(alloc: Global, token: &Token<'_>) -> Result<Place, Fault>
    ensures { (ds : List Declared)
        → Gives (at_place ds) result (spec.name_step ds (token_of token.now)) }
{
    match token {
        Token::Word(word) => {
            if is_name(word) {
                Ok(Place::BehindName(Bytes::from_slice(alloc, word)?))
            } else {
                Err(Fault::Refused)
            }
        }
        _ => Err(Fault::Refused),
    }
}

#[tactic(auto, using(crate::proofs::Passing::passed_on))]
fn kind_step(alloc: Global, name: Bytes, token: &Token<'_>) -> Result<Place, Fault>
    ensures { (ds : List Declared)
        → Gives (at_place ds) result (spec.kind_step ds name (token_of token.now)) }
{
    match token {
        Token::Word(word) => match kind_named(word) {
            Ok(kind) => Ok(Place::BehindKind(name, kind)),
            Err(fault) => Err(fault),
        },
        Token::Opening => Ok(Place::AtToken(name, Vec::new(alloc))),
        _ => Err(Fault::Refused),
    }
}

// The tokens of an enumeration with one more.
fn with_token(alloc: Global, mut tokens: Vec<Bytes>, word: &[u8]) -> Result<Vec<Bytes>, NoMemory>
    ensures { IfOk result (λ ts. ts.items ≡ tokens.items ++ word.now ∷ []) }
{
    tokens.push(Bytes::from_slice(alloc, word)?)?;
    Ok(tokens)
}

fn token_step(
    alloc: Global,
    name: Bytes,
    tokens: Vec<Bytes>,
    token: &Token<'_>,
) -> Result<Place, Fault>
    ensures { (ds : List Declared)
        → Gives (at_place ds) result (spec.token_step ds name tokens.items (token_of token.now)) }
{
    match token {
        Token::Gap => Ok(Place::AtToken(name, tokens)),
        Token::Word(word) => Ok(Place::BehindToken(name, with_token(alloc, tokens, word)?)),
        _ => Err(Fault::Refused),
    }
}

fn behind_token_step(name: Bytes, tokens: Vec<Bytes>, token: &Token<'_>) -> Result<Place, Fault>
    ensures { (ds : List Declared)
        → Gives (at_place ds) result
        (spec.behind_token_step ds name tokens.items (token_of token.now)) }
{
    match token {
        Token::Gap => Ok(Place::BehindToken(name, tokens)),
        Token::Bar => Ok(Place::AtToken(name, tokens)),
        Token::Closing => Ok(Place::BehindKind(name, AttrKind::Choice(tokens))),
        _ => Err(Fault::Refused),
    }
}

// A place that white space leads to.
fn behind_gap(next: Place, token: &Token<'_>) -> Result<Place, Fault>
    ensures { (ds : List Declared) → Gives (at_place ds) result
        (if is_gap (token_of token.now) then leads (at_place ds next) else refused) }
{
    match token {
        Token::Gap => Ok(next),
        _ => Err(Fault::Refused),
    }
}

// The attributes with one more.
fn with_attribute(
    mut attributes: Vec<AttrRule>,
    name: Bytes,
    kind: AttrKind,
    need: Need,
) -> Result<Reading, NoMemory>
    ensures { IfOk result (λ r. reading_of r
        ≡ spec.with_attribute (map declared_of attributes.items) name (kind_of kind)
        (presence_of need)) }
{
    attributes.push(AttrRule { name, kind, need })?;
    Ok(Reading {
        attributes,
        place: Place::Between,
    })
}

fn default_step(
    attributes: Vec<AttrRule>,
    name: Bytes,
    kind: AttrKind,
    token: &Token<'_>,
) -> Result<Reading, Fault>
    ensures { Gives reading_of result
        (spec.default_step (map declared_of attributes.items) name (kind_of kind)
        (token_of token.now)) }
{
    match token {
        Token::Hash => Ok(Reading {
            attributes,
            place: Place::AtWord(name, kind),
        }),
        Token::Literal(value) => {
            if is_attribute_value(value) {
                Ok(with_attribute(attributes, name, kind, Need::Default)?)
            } else {
                Err(Fault::Refused)
            }
        }
        _ => Err(Fault::Refused),
    }
}

fn word_step(
    attributes: Vec<AttrRule>,
    name: Bytes,
    kind: AttrKind,
    token: &Token<'_>,
) -> Result<Reading, Fault>
    ensures { Gives reading_of result
        (spec.word_step (map declared_of attributes.items) name (kind_of kind) (token_of token.now)) }
{
    match token {
        Token::Word(word) => {
            if *word == b"REQUIRED".as_slice() {
                Ok(with_attribute(attributes, name, kind, Need::Required)?)
            } else if *word == b"IMPLIED".as_slice() {
                Ok(with_attribute(attributes, name, kind, Need::Implied)?)
            } else if *word == b"FIXED".as_slice() {
                Ok(Reading {
                    attributes,
                    place: Place::BehindFixed(name, kind),
                })
            } else {
                Err(Fault::Refused)
            }
        }
        _ => Err(Fault::Refused),
    }
}

fn fixed_step(
    alloc: Global,
    attributes: Vec<AttrRule>,
    name: Bytes,
    kind: AttrKind,
    token: &Token<'_>,
) -> Result<Reading, Fault>
    ensures { Gives reading_of result
        (spec.fixed_step (map declared_of attributes.items) name (kind_of kind)
        (token_of token.now)) }
{
    match token {
        Token::Literal(value) => {
            if is_attribute_value(value) {
                let value = Bytes::from_slice(alloc, value)?;
                Ok(with_attribute(attributes, name, kind, Need::Fixed(value))?)
            } else {
                Err(Fault::Refused)
            }
        }
        _ => Err(Fault::Refused),
    }
}

// The attributes beside a place that a step leads to.
fn beside(attributes: Vec<AttrRule>, place: Result<Place, Fault>) -> Result<Reading, Fault>
    ensures { (w : Went spec.Stage) → Gives (at_place (map declared_of attributes.items)) place w
        → Gives reading_of result w }
{
    match place {
        Ok(place) => Ok(Reading { attributes, place }),
        Err(fault) => Err(fault),
    }
}

/// What a token leads to.
pub fn step(alloc: Global, reading: Reading, token: &Token<'_>) -> Result<Reading, Fault>
    ensures { Gives reading_of result (spec.stage_step (reading_of reading) (token_of token.now)) }
{
    let Reading { attributes, place } = reading;
    match place {
        Place::Between => beside(attributes, behind_gap(Place::AtName, token)),
        Place::AtName => beside(attributes, name_step(alloc, token)),
        Place::BehindName(name) => beside(attributes, behind_gap(Place::AtKind(name), token)),
        Place::AtKind(name) => beside(attributes, kind_step(alloc, name, token)),
        Place::AtToken(name, tokens) => beside(attributes, token_step(alloc, name, tokens, token)),
        Place::BehindToken(name, tokens) => {
            beside(attributes, behind_token_step(name, tokens, token))
        }
        Place::BehindKind(name, kind) => {
            beside(attributes, behind_gap(Place::AtDefault(name, kind), token))
        }
        Place::AtDefault(name, kind) => default_step(attributes, name, kind, token),
        Place::AtWord(name, kind) => word_step(attributes, name, kind, token),
        Place::BehindFixed(name, kind) => {
            beside(attributes, behind_gap(Place::AtFixed(name, kind), token))
        }
        Place::AtFixed(name, kind) => fixed_step(alloc, attributes, name, kind, token),
    }
}

// Where the tokens end.
fn end(reading: Reading) -> Result<Vec<AttrRule>, Fault>
    ensures { Gives (λ ds. map declared_of ds.items) result (spec.stage_end (reading_of reading)) }
{
    let Reading { attributes, place } = reading;
    match place {
        Place::Between => Ok(attributes),
        Place::AtName => Ok(attributes),
        _ => Err(Fault::Refused),
    }
}

fn start(alloc: Global) -> Reading
    ensures { reading_of result ≡ spec.between [] }
{
    Reading {
        attributes: Vec::new(alloc),
        place: Place::Between,
    }
}

/// The attributes that the tokens behind the name of the element declare.
///
/// # Errors
///
/// As the tokens go wrong: `Refused`, `LeftOut` for a type of entities or notations; and `Memory`.
pub fn attributes_of(alloc: Global, tokens: &[Token<'_>]) -> Result<Vec<AttrRule>, Fault>
    ensures { Gives (λ ds. map declared_of ds.items) result
        (spec.attributes_of (tokens_of tokens.now)) }
{
    let mut reading = start(alloc);
    for token in tokens {
        reading = match step(alloc, reading, token) {
            Ok(next) => next,
            Err(fault) => return Err(fault),
        };
    }
    end(reading)
}
