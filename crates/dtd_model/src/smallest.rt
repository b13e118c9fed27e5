//! The smallest document type.

ghost use Rattle.std.specs.Prelude.{◌≡◌, IfOk};
ghost use Rattle.dtd_model.specs.TableOf.{table_of};
ghost use Rattle.dtd_model.specs.Table.{rule_of, holding_of, children, sequence, more_models, no_models, one, any_number};
ghost use Rattle.dtd_model.specs.Mini.{mini_table, plain_rule};

use crate::definition::Dtd;
use crate::dtd::{Content, DoctypeRule, ElementRule, Particle};
use std::alloc::Global;
use text_base::{Bytes, Elem, NoMemory};

/// The smallest document type: `html` holds one `body`, `body` any number of `p`, and `p` text.
/// It declares no attributes and no entities, and a page needs no document type declaration.
pub fn mini(alloc: Global) -> Result<Dtd, NoMemory>
    ensures { IfOk result (λ dtd. table_of dtd ≡ mini_table) }
{
    let html = rule(alloc, b"html", html_content(alloc)?)?;
    let body = rule(alloc, b"body", body_content(alloc)?)?;
    let paragraph = rule(alloc, b"p", Content::Mixed(Vec::new(alloc)))?;
    let mut elements = Vec::new(alloc);
    elements.push(html)?;
    elements.push(body)?;
    elements.push(paragraph)?;
    Ok(Dtd {
        elements,
        entities: Vec::new(alloc),
        doctype: DoctypeRule::Free,
    })
}

// An element without attributes.
fn rule(alloc: Global, name: &[u8], content: Content) -> Result<ElementRule, NoMemory>
    ensures { IfOk result (λ r. rule_of r ≡ plain_rule name.now (holding_of content)) }
{
    Ok(ElementRule {
        name: Bytes::from_slice(alloc, name)?,
        content,
        attributes: Vec::new(alloc),
    })
}

// `(body)`
#[tactic(auto, using(crate::proofs::Views::views))]
fn html_content(alloc: Global) -> Result<Content, NoMemory>
    ensures { IfOk result (λ c. holding_of c ≡ children (sequence (more_models (one 1) no_models))) }
{
    let mut parts = Vec::new(alloc);
    parts.push(Particle::One(Elem(1)))?;
    Ok(Content::Children(Particle::Seq(parts)))
}

// `(p)*`
#[tactic(auto, using(crate::proofs::Views::views))]
fn body_content(alloc: Global) -> Result<Content, NoMemory>
    ensures { IfOk result (λ c. holding_of c ≡ children (any_number (one 2))) }
{
    let paragraph = Box::new(alloc, Particle::One(Elem(2)))?;
    Ok(Content::Children(Particle::Star(paragraph)))
}
