//! The positions of a content model, and what may come behind each of them.

ghost use Rattle.std.specs.Prelude.{◌≡◌, ◌+◌, ◌++◌, ◌∷◌, [], IfOk, OnOk};
ghost use Rattle.dtd_model.specs.Table.{model_of, models_in};
ghost use Rattle.dtd_model.specs.Matches as matching;
ghost use Rattle.content_automata.specs.Positions as spec;
ghost use Rattle.content_automata.specs.PlaceViews.{next_of, positions_of};

use dtd_model::Particle;
use std::alloc::Global;
use text_base::NoMemory;

/// What may come next: one of these positions, or the end of the model.
#[derive(Debug, Drop)]
pub struct Behind {
    pub positions: Vec<usize>,
    pub whole: bool,
}

/// A position: the element that is named there, and what may come behind it.
#[derive(Debug, Drop)]
pub struct Place {
    pub element: usize,
    pub behind: Behind,
}

// Whether the particle matches no element at all.
#[tactic(auto, using(dtd_model::proofs::Views::views), unfolding(dtd_model::specs::Matches::may_be_empty))]
#[cycle(emptiness)]
pub(crate) fn may_be_empty(particle: &Particle) -> bool
    ensures { result ≡ matching.may_be_empty (model_of particle.now) }
{
    match particle {
        Particle::One(_) => false,
        Particle::Seq(parts) => all_may_be_empty(parts.as_slice()),
        Particle::Alt(parts) => some_may_be_empty(parts.as_slice()),
        Particle::Opt(_) => true,
        Particle::Star(_) => true,
        Particle::Plus(inner) => may_be_empty(inner),
    }
}

#[cycle(emptiness)]
#[tactic(auto, unfolding(dtd_model::specs::Matches::may_be_empty))]
fn all_may_be_empty(parts: &[Particle]) -> bool
    ensures { result ≡ matching.all_may_be_empty (models_in parts.now) }
{
    for part in parts {
        if !may_be_empty(part) {
            return false;
        }
    }
    true
}

#[cycle(emptiness)]
#[tactic(auto, unfolding(dtd_model::specs::Matches::may_be_empty))]
fn some_may_be_empty(parts: &[Particle]) -> bool
    ensures { result ≡ matching.some_may_be_empty (models_in parts.now) }
{
    for part in parts {
        if may_be_empty(part) {
            return true;
        }
    }
    false
}

// The sum of two counts. None of what memory holds is more than a `usize` counts.
pub(crate) fn added(a: usize, b: usize) -> Result<usize, NoMemory>
    ensures { IfOk result (λ n. n ≡ a + b) }
{
    match a.checked_add(b) {
        Some(sum) => Ok(sum),
        None => Err(NoMemory),
    }
}

// How many positions the particle has.
#[cycle(counting)]
#[tactic(auto, using(dtd_model::proofs::Views::views), unfolding(crate::specs::Positions::positions))]
fn positions(particle: &Particle) -> Result<usize, NoMemory>
    ensures { IfOk result (λ n. n ≡ spec.positions (model_of particle.now)) }
{
    match particle {
        Particle::One(_) => Ok(1),
        Particle::Seq(parts) => positions_in(parts.as_slice()),
        Particle::Alt(parts) => positions_in(parts.as_slice()),
        Particle::Opt(inner) => positions(inner),
        Particle::Star(inner) => positions(inner),
        Particle::Plus(inner) => positions(inner),
    }
}

#[cycle(counting)]
#[tactic(auto, unfolding(crate::specs::Positions::positions))]
fn positions_in(parts: &[Particle]) -> Result<usize, NoMemory>
    ensures { IfOk result (λ n. n ≡ spec.positions_in (models_in parts.now)) }
{
    let mut sum: usize = 0;
    for part in parts {
        sum = added(sum, positions(part)?)?;
    }
    Ok(sum)
}

// Puts down the positions that a match of the particle may begin with.
#[cycle(beginning)]
#[tactic(auto, using(dtd_model::proofs::Views::views), unfolding(crate::specs::Positions::firsts))]
fn push_firsts(particle: &Particle, base: usize, out: &mut Vec<usize>) -> Result<(), NoMemory>
    ensures { OnOk result
        (out.new.items ≡ out.old.items ++ spec.firsts base (model_of particle.now)) }
{
    match particle {
        Particle::One(_) => Ok(out.push(base)?),
        Particle::Seq(parts) => push_firsts_in_turn(parts.as_slice(), base, out),
        Particle::Alt(parts) => push_firsts_of_each(parts.as_slice(), base, out),
        Particle::Opt(inner) => push_firsts(inner, base, out),
        Particle::Star(inner) => push_firsts(inner, base, out),
        Particle::Plus(inner) => push_firsts(inner, base, out),
    }
}

#[cycle(beginning)]
#[tactic(auto, using(crate::proofs::PartLemmas::parts), unfolding(crate::specs::Positions::firsts))]
fn push_firsts_in_turn(
    parts: &[Particle],
    base: usize,
    out: &mut Vec<usize>,
) -> Result<(), NoMemory>
    ensures { OnOk result
        (out.new.items ≡ out.old.items ++ spec.firsts_in_turn base (models_in parts.now)) }
{
    let mut at = base;
    for part in parts {
        push_firsts(part, at, out)?;
        if !may_be_empty(part) {
            return Ok(());
        }
        at = added(at, positions(part)?)?;
    }
    Ok(())
}

#[cycle(beginning)]
#[tactic(auto, using(crate::proofs::PartLemmas::parts), unfolding(crate::specs::Positions::firsts))]
fn push_firsts_of_each(
    parts: &[Particle],
    base: usize,
    out: &mut Vec<usize>,
) -> Result<(), NoMemory>
    ensures { OnOk result
        (out.new.items ≡ out.old.items ++ spec.firsts_of_each base (models_in parts.now)) }
{
    let mut at = base;
    for part in parts {
        push_firsts(part, at, out)?;
        at = added(at, positions(part)?)?;
    }
    Ok(())
}

// A second one.
pub(crate) fn copied(alloc: Global, next: &Behind) -> Result<Behind, NoMemory>
    ensures { IfOk result (λ b. next_of b ≡ next_of next.now) }
{
    Ok(Behind {
        positions: Vec::from_slice(alloc, next.positions.as_slice())?,
        whole: next.whole,
    })
}

// What may come next where the parts are to come, and then what is given.
fn before_all(
    alloc: Global,
    parts: &[Particle],
    base: usize,
    next: &Behind,
) -> Result<Behind, NoMemory>
    ensures { IfOk result
        (λ b. next_of b ≡ spec.before_all base (models_in parts.now) (next_of next.now)) }
{
    let mut positions = Vec::new(alloc);
    push_firsts_in_turn(parts, base, &mut positions)?;
    if all_may_be_empty(parts) {
        positions.extend_from_slice(next.positions.as_slice())?;
        return Ok(Behind {
            positions,
            whole: next.whole,
        });
    }
    Ok(Behind {
        positions,
        whole: false,
    })
}

// What may come next where the particle is to come, and then the end.
fn before_end(alloc: Global, particle: &Particle) -> Result<Behind, NoMemory>
    ensures { IfOk result (λ b. next_of b ≡ spec.first_of (model_of particle.now)) }
{
    let mut positions = Vec::new(alloc);
    push_firsts(particle, 0, &mut positions)?;
    Ok(Behind {
        positions,
        whole: may_be_empty(particle),
    })
}

// What may come next behind a particle that may come again.
fn again(alloc: Global, particle: &Particle, base: usize, next: Behind) -> Result<Behind, NoMemory>
    ensures { IfOk result
        (λ b. next_of b ≡ spec.again base (model_of particle.now) (next_of next)) }
{
    let mut positions = Vec::new(alloc);
    push_firsts(particle, base, &mut positions)?;
    positions.extend_from_slice(next.positions.as_slice())?;
    Ok(Behind {
        positions,
        whole: next.whole,
    })
}

// Puts down the position of an element.
fn push_place(element: usize, behind: Behind, places: &mut Vec<Place>) -> Result<(), NoMemory>
    ensures { OnOk result (positions_of places.new.items
        ≡ positions_of places.old.items ++
        (record { element = element; behind = next_of behind } ∷ [])) }
{
    places.push(Place { element, behind })?;
    Ok(())
}

// Puts down the positions of the particle, where this may come behind it.
#[cycle(placing)]
#[tactic(auto, using(dtd_model::proofs::Views::views), unfolding(crate::specs::Positions::places))]
fn push_places(
    alloc: Global,
    particle: &Particle,
    base: usize,
    next: Behind,
    places: &mut Vec<Place>,
) -> Result<(), NoMemory>
    ensures { OnOk result (positions_of places.new.items
        ≡ positions_of places.old.items ++ spec.places base (model_of particle.now)
        (next_of next)) }
{
    match particle {
        Particle::One(element) => push_place(usize::from(element.0), next, places),
        Particle::Seq(parts) => { push_places_in_turn(alloc, parts.as_slice(), base, next, places) }
        Particle::Alt(parts) => { push_places_of_each(alloc, parts.as_slice(), base, next, places) }
        Particle::Opt(inner) => push_places(alloc, inner, base, next, places),
        Particle::Star(inner) => {
            let behind = again(alloc, inner, base, next)?;
            push_places(alloc, inner, base, behind, places)
        }
        Particle::Plus(inner) => {
            let behind = again(alloc, inner, base, next)?;
            push_places(alloc, inner, base, behind, places)
        }
    }
}

#[cycle(placing)]
#[tactic(auto, using(crate::proofs::PartLemmas::parts), unfolding(crate::specs::Positions::places))]
fn push_places_in_turn(
    alloc: Global,
    parts: &[Particle],
    base: usize,
    next: Behind,
    places: &mut Vec<Place>,
) -> Result<(), NoMemory>
    ensures { OnOk result (positions_of places.new.items
        ≡ positions_of places.old.items ++ spec.places_in_turn base (models_in parts.now)
        (next_of next)) }
{
    let mut at = base;
    for i in 0..parts.len() {
        let part = &parts[i];
        if i + 1 == parts.len() {
            return push_places(alloc, part, at, next, places);
        }
        let behind = added(at, positions(part)?)?;
        let inner = before_all(alloc, &parts[i + 1..], behind, &next)?;
        push_places(alloc, part, at, inner, places)?;
        at = behind;
    }
    Ok(())
}

#[cycle(placing)]
#[tactic(auto, using(crate::proofs::PartLemmas::parts), unfolding(crate::specs::Positions::places))]
fn push_places_of_each(
    alloc: Global,
    parts: &[Particle],
    base: usize,
    next: Behind,
    places: &mut Vec<Place>,
) -> Result<(), NoMemory>
    ensures { OnOk result (positions_of places.new.items
        ≡ positions_of places.old.items ++ spec.places_of_each base (models_in parts.now)
        (next_of next)) }
{
    let mut at = base;
    for i in 0..parts.len() {
        let part = &parts[i];
        if i + 1 == parts.len() {
            return push_places(alloc, part, at, next, places);
        }
        let behind = copied(alloc, &next)?;
        push_places(alloc, part, at, behind, places)?;
        at = added(at, positions(part)?)?;
    }
    Ok(())
}

/// What may come first in an element with this content model.
pub fn first_of(alloc: Global, particle: &Particle) -> Result<Behind, NoMemory>
    ensures { IfOk result (λ b. next_of b ≡ spec.first_of (model_of particle.now)) }
{
    before_end(alloc, particle)
}

/// The positions of a content model, from left to right.
pub fn places_of(alloc: Global, particle: &Particle) -> Result<Vec<Place>, NoMemory>
    ensures { IfOk result
        (λ places. positions_of places.items ≡ spec.places_of (model_of particle.now)) }
{
    let end = Behind {
        positions: Vec::new(alloc),
        whole: true,
    };
    let mut places = Vec::new(alloc);
    push_places(alloc, particle, 0, end, &mut places)?;
    Ok(places)
}
