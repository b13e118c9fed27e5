//! How many pairs of positions content models have, counted before any position is put down.

ghost use Rattle.std.specs.Prelude.{◌≡◌, map, IfOk};
ghost use Rattle.dtd_model.specs.declared.dtd.ElementRule.{ElementRule};
ghost use Rattle.dtd_model.specs.Table.{model_of, models_in, holding_of};
ghost use Rattle.content_automata.specs.Counts as spec;
ghost use Rattle.content_automata.specs.Shapes.{shape};

use crate::places::{added, may_be_empty};
use dtd_model::{Content, ElementRule, Particle};
use text_base::NoMemory;

// How many positions a match of the particle may begin with.
#[cycle(beginnings)]
#[tactic(auto, using(dtd_model::proofs::Views::views), unfolding(crate::specs::Counts::beginnings))]
fn beginnings(particle: &Particle) -> Result<usize, NoMemory>
    ensures { IfOk result (λ n. n ≡ spec.beginnings (model_of particle.now)) }
{
    match particle {
        Particle::One(_) => Ok(1),
        Particle::Seq(parts) => ahead(parts.as_slice()),
        Particle::Alt(parts) => beginnings_of_each(parts.as_slice()),
        Particle::Opt(inner) => beginnings(inner),
        Particle::Star(inner) => beginnings(inner),
        Particle::Plus(inner) => beginnings(inner),
    }
}

// The same, of a sequence.
#[cycle(beginnings)]
#[tactic(auto, using(crate::proofs::PartLemmas::parts), unfolding(crate::specs::Counts::beginnings))]
fn ahead(parts: &[Particle]) -> Result<usize, NoMemory>
    ensures { IfOk result (λ n. n ≡ spec.ahead (models_in parts.now) 0) }
{
    let mut sum: usize = 0;
    for part in parts {
        sum = added(sum, beginnings(part)?)?;
        if !may_be_empty(part) {
            return Ok(sum);
        }
    }
    Ok(sum)
}

// The same, of a choice.
#[cycle(beginnings)]
#[tactic(auto, using(crate::proofs::PartLemmas::parts), unfolding(crate::specs::Counts::beginnings))]
fn beginnings_of_each(parts: &[Particle]) -> Result<usize, NoMemory>
    ensures { IfOk result (λ n. n ≡ spec.beginnings_of_each (models_in parts.now)) }
{
    let mut sum: usize = 0;
    for part in parts {
        sum = added(sum, beginnings(part)?)?;
    }
    Ok(sum)
}

// How many pairs the particle has, where one of so many positions may come behind it.
#[cycle(pairs)]
#[tactic(auto, using(dtd_model::proofs::Views::views), unfolding(crate::specs::Counts::pairs))]
fn pairs(particle: &Particle, behind: usize) -> Result<usize, NoMemory>
    ensures { IfOk result (λ n. n ≡ spec.pairs (model_of particle.now) behind) }
{
    match particle {
        Particle::One(_) => Ok(behind),
        Particle::Seq(parts) => pairs_in_turn(parts.as_slice(), behind),
        Particle::Alt(parts) => pairs_of_each(parts.as_slice(), behind),
        Particle::Opt(inner) => pairs(inner, behind),
        Particle::Star(inner) => pairs(inner, added(beginnings(inner)?, behind)?),
        Particle::Plus(inner) => pairs(inner, added(beginnings(inner)?, behind)?),
    }
}

// The same, of a sequence: from its last part to the first, with how many may come behind each.
#[cycle(pairs)]
#[tactic(auto, using(crate::proofs::PartLemmas::parts), unfolding(crate::specs::Counts::pairs))]
fn pairs_in_turn(parts: &[Particle], behind: usize) -> Result<usize, NoMemory>
    ensures { IfOk result (λ n. n ≡ spec.pairs_in_turn (models_in parts.now) behind) }
{
    let mut sum: usize = 0;
    let mut next = behind;
    let mut left = parts.len();
    'parts: while left > 0 {
        left -= 1;
        let part = &parts[left];
        let count = pairs(part, next)?;
        let more = added(count, sum)?;
        if left == 0 {
            return Ok(more);
        }
        let ahead = before(part, next)?;
        sum = more;
        next = ahead;
    }
    Ok(sum)
}

// How many positions may come next where the particle is to come, and behind it one of so many.
fn before(particle: &Particle, behind: usize) -> Result<usize, NoMemory>
    ensures { IfOk result (λ n. n ≡ spec.before_it (model_of particle.now) behind) }
{
    let first = beginnings(particle)?;
    if may_be_empty(particle) {
        return added(first, behind);
    }
    Ok(first)
}

// The same, of a choice.
#[cycle(pairs)]
#[tactic(auto, using(crate::proofs::PartLemmas::parts), unfolding(crate::specs::Counts::pairs))]
fn pairs_of_each(parts: &[Particle], behind: usize) -> Result<usize, NoMemory>
    ensures { IfOk result (λ n. n ≡ spec.pairs_of_each (models_in parts.now) behind) }
{
    let mut sum: usize = 0;
    for part in parts {
        sum = added(sum, pairs(part, behind)?)?;
    }
    Ok(sum)
}

// How many pairs the content model has, where the content is one.
fn pairs_of(content: &Content) -> Result<usize, NoMemory>
    ensures { IfOk result (λ n. n ≡ spec.pairs_of (shape (holding_of content.now))) }
{
    match content {
        Content::Empty => Ok(0),
        Content::Any => Ok(0),
        Content::Mixed(_) => Ok(0),
        Content::Children(particle) => {
            let count = pairs(particle, 0)?;
            Ok(count)
        }
    }
}

/// How many pairs of positions, of which the second may come behind the first, the content models
/// of these elements have together. Takes no memory, and no longer than to look at each part of a
/// model as often as parts stand round it.
pub fn all_pairs(elements: &[ElementRule]) -> Result<usize, NoMemory>
    ensures { IfOk result (λ n. n
        ≡ spec.pairs_in (map (λ (r : ElementRule). shape (holding_of r.content)) elements.now)) }
{
    let mut sum: usize = 0;
    for element in elements {
        sum = added(sum, pairs_of(&element.content)?)?;
    }
    Ok(sum)
}
