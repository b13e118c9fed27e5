//! What a declaration says.

ghost use Rattle.std.specs.Prelude.{◌≡◌, List, ℕ, IfOk, map};
ghost use Rattle.dtd_declarations.specs.TokenViews.{tokens_of};
ghost use Rattle.dtd_texts.specs.Tables as spec;
ghost use Rattle.dtd_texts.specs.Tokens.{next_word};
ghost use Rattle.dtd_texts.specs.Went.{leads, then_go};
ghost use Rattle.dtd_texts.specs.ContentModels as contents;
ghost use Rattle.dtd_texts.specs.AttributeLists as lists;
ghost use Rattle.dtd_declarations.specs.Views.{Gives, said_of};

use crate::attribute_steps::attributes_of;
use crate::content::content_of;
use crate::fault::Fault;
use crate::names::Names;
use crate::{Token, first_word, next_word, tokens_of};
use dtd_model::{AttrRule, Content};
use std::alloc::Global;
use text_base::{Bytes, NoMemory};
use xml_text::is_name;

/// What a declaration says.
#[derive(Debug, Drop)]
pub enum Said {
    /// An element of this name holds this.
    Element(Bytes, Content),
    /// The element of this name has these attributes.
    Attributes(Bytes, Vec<AttrRule>),
}

// The declaration of an element, behind its first word.
#[tactic(auto, using(crate::proofs::Passing::passed_on))]
fn element(alloc: Global, names: &Names, tokens: &[Token<'_>]) -> Result<Said, Fault>
    ensures { Gives said_of result (spec.element_said names.now (next_word (tokens_of tokens.now))) }
{
    match next_word(tokens) {
        None => Err(Fault::Refused),
        Some((name, rest)) => {
            if !is_name(name) {
                return Err(Fault::Refused);
            }
            let name = Bytes::from_slice(alloc, name)?;
            match content_of(alloc, names, rest) {
                Ok(content) => Ok(Said::Element(name, content)),
                Err(fault) => Err(fault),
            }
        }
    }
}

// An attribute list declaration, behind its first word.
#[tactic(auto, using(crate::proofs::Passing::passed_on))]
fn attributes(alloc: Global, tokens: &[Token<'_>]) -> Result<Said, Fault>
    ensures { Gives said_of result (spec.attributes_said (next_word (tokens_of tokens.now))) }
{
    match next_word(tokens) {
        None => Err(Fault::Refused),
        Some((name, rest)) => {
            if !is_name(name) {
                return Err(Fault::Refused);
            }
            let name = Bytes::from_slice(alloc, name)?;
            match attributes_of(alloc, rest) {
                Ok(rules) => Ok(Said::Attributes(name, rules)),
                Err(fault) => Err(fault),
            }
        }
    }
}

/// What the text of a declaration says, from behind `<!` to its `>`, where these elements are
/// declared.
///
/// # Errors
///
/// `Refused` where it is none of the declarations of XML 1.0 (3.2 and 3.3), `LeftOut` for a
/// notation or an attribute of entities or notations, `TooDeep` with over 200 open brackets,
/// `Undeclared` where a content model names an element that is not declared, and `Memory`.
#[tactic(auto, unfolding(dtd_texts::specs::Tables::said))]
pub fn read_declaration(alloc: Global, names: &Names, text: &[u8]) -> Result<Said, Fault>
    ensures { Gives said_of result (spec.said names.now text.now) }
{
    let tokens = tokens_of(alloc, text)?;
    match first_word(tokens.as_slice()) {
        None => Err(Fault::Refused),
        Some((word, rest)) => {
            if word == b"ELEMENT".as_slice() {
                element(alloc, names, rest)
            } else if word == b"ATTLIST".as_slice() {
                attributes(alloc, rest)
            } else if word == b"NOTATION".as_slice() {
                Err(Fault::LeftOut)
            } else {
                Err(Fault::Refused)
            }
        }
    }
}

/// The element that the text of a declaration declares, where it begins as the declaration of one.
#[tactic(auto, unfolding(dtd_texts::specs::Tables::declared))]
pub fn declared_element(alloc: Global, text: &[u8]) -> Result<Option<Bytes>, NoMemory>
    ensures { IfOk result (λ name. name ≡ spec.declared text.now) }
{
    let tokens = tokens_of(alloc, text)?;
    match first_word(tokens.as_slice()) {
        None => Ok(None),
        Some((word, rest)) => {
            if word != b"ELEMENT".as_slice() {
                return Ok(None);
            }
            match next_word(rest) {
                None => Ok(None),
                Some((name, _)) => {
                    if is_name(name) {
                        Ok(Some(Bytes::from_slice(alloc, name)?))
                    } else {
                        Ok(None)
                    }
                }
            }
        }
    }
}
