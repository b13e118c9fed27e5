//! What an element may hold, ready to be walked.

ghost use Rattle.std.specs.Prelude.{◌≡◌, length, map, replicate, false, IfOk};
ghost use Rattle.std.specs.List.{range_with_len};
ghost use Rattle.content_automata.specs.Sets.{raised};
ghost use Rattle.dtd_model.specs.Table as table;
ghost use Rattle.content_automata.specs.Shapes as spec;
ghost use Rattle.content_automata.specs.Views.{shape_of};
ghost use Rattle.content_automata.specs.Counts as counts;
ghost use Rattle.content_automata.specs.PlaceViews.{positions_of};
ghost use Rattle.content_automata.specs.Ascending.{Ascends};

use crate::places::added;
use crate::sets::place_of;
use crate::{Flags, Place, first_of, places_of, set_of, steps};
use dtd_model::{Content, Particle};
use std::alloc::Global;
use text_base::{Elem, NoMemory};

/// What an element may hold.
#[derive(Debug, Drop)]
pub enum Model {
    /// Nothing.
    Nothing,
    /// Anything.
    Anything,
    /// Text and these elements.
    Text(Vec<usize>),
    /// Elements that a content model matches: the set before a match, and the positions.
    Children(Flags, Vec<Place>),
}

// The numbers of the elements.
fn numbers(alloc: Global, elements: &[Elem]) -> Result<Vec<usize>, NoMemory>
    ensures { IfOk result (λ v. v.items ≡ map (λ (e : Elem). e.0) elements.now) }
{
    let mut numbers = Vec::new(alloc);
    for element in elements {
        numbers.push(usize::from(element.0))?;
    }
    Ok(numbers)
}

fn children(alloc: Global, particle: &Particle) -> Result<Model, NoMemory>
    ensures { IfOk result
        (λ m. shape_of m ≡ spec.shape (table.children (table.model_of particle.now))) }
{
    let first = first_of(alloc, particle)?;
    let places = places_of(alloc, particle)?;
    let set = set_of(alloc, places.len(), &first)?;
    Ok(Model::Children(set, places))
}

/// What an element with this content may hold.
pub fn model_of_content(alloc: Global, content: &Content) -> Result<Model, NoMemory>
    ensures { IfOk result (λ m. shape_of m ≡ spec.shape (table.holding_of content.now)) }
{
    match content {
        Content::Empty => Ok(Model::Nothing),
        Content::Any => Ok(Model::Anything),
        Content::Mixed(elements) => Ok(Model::Text(numbers(alloc, elements.as_slice())?)),
        Content::Children(particle) => children(alloc, particle),
    }
}

/// The state that an element begins in.
pub fn first_state(alloc: Global, model: &Model) -> Result<Flags, NoMemory>
    ensures { IfOk result (λ f. f ≡ spec.first_state (shape_of model.now)) }
{
    match model {
        Model::Nothing => Ok(Flags::end_alone(alloc)),
        Model::Anything => Ok(Flags::end_alone(alloc)),
        Model::Text(_) => Ok(Flags::end_alone(alloc)),
        Model::Children(first, _) => first.copy(alloc),
    }
}

// Which of so many numbers are listed.
fn listed(alloc: Global, count: usize, numbers: &[usize]) -> Result<Vec<bool>, NoMemory>
    ensures { IfOk result (λ v. v.items ≡ raised (replicate count false) numbers.now) }
{
    let mut flags = Vec::from_elem(alloc, false, count)?;
    for number in numbers {
        if *number < flags.len() {
            flags[*number] = true;
        }
    }
    Ok(flags)
}

// The state where it is said, and none elsewhere.
fn kept(alloc: Global, flags: &Flags, stays: &[bool]) -> Result<Vec<Option<Flags>>, NoMemory>
    ensures { IfOk result (λ v. v.items ≡ map (spec.kept flags.now) stays.now) }
{
    let mut states = Vec::new(alloc);
    for stay in stays {
        if *stay {
            states.push(Some(flags.copy(alloc)?))?;
            continue;
        }
        states.push(None)?;
    }
    Ok(states)
}

// The state for each of so many children, or none for each.
fn kept_for_all(
    alloc: Global,
    flags: &Flags,
    stays: bool,
    count: usize,
) -> Result<Vec<Option<Flags>>, NoMemory>
    ensures { IfOk result (λ v. v.items ≡ map (spec.kept flags.now) (replicate count stays)) }
{
    let all = Vec::from_elem(alloc, stays, count)?;
    kept(alloc, flags, all.as_slice())
}

// The state for each child that is listed, of so many.
fn kept_for(
    alloc: Global,
    flags: &Flags,
    children: &[usize],
    count: usize,
) -> Result<Vec<Option<Flags>>, NoMemory>
    ensures { IfOk result
        (λ v. v.items ≡ map (spec.kept flags.now) (raised (replicate count false) children.now)) }
{
    let stays = listed(alloc, count, children)?;
    kept(alloc, flags, stays.as_slice())
}

/// The state behind each child, where so many elements are declared; none where no match goes on
/// so. Looks at the positions in the state, at those that may come behind them, and once at each
/// declared element.
pub fn states_behind(
    alloc: Global,
    count: usize,
    model: &Model,
    flags: &Flags,
) -> Result<Vec<Option<Flags>>, NoMemory>
    requires { spec.IsSized (shape_of model.now) flags.now }
    ensures { IfOk result
        (λ v. v.items ≡ map (spec.state_behind count (shape_of model.now) flags.now)
        (range_with_len 0 count)) }
{
    match model {
        Model::Nothing => kept_for_all(alloc, flags, false, count),
        Model::Anything => kept_for_all(alloc, flags, true, count),
        Model::Text(elements) => kept_for(alloc, flags, elements.as_slice(), count),
        Model::Children(_, places) => steps(alloc, count, places.as_slice(), flags),
    }
}

// How many pairs begin in these positions.
fn moves_from(places: &[Place], members: &[usize]) -> Result<usize, NoMemory>
    requires { Ascends 0 (length places.now) members.now }
    ensures { IfOk result (λ n. n ≡ counts.moves_from (positions_of places.now) members.now) }
{
    let mut sum: usize = 0;
    for member in members {
        sum = added(sum, place_of(places, *member).behind.positions.len())?;
    }
    Ok(sum)
}

/// How many moves the state has: the pairs that begin in one of its positions.
pub fn moves_of(model: &Model, flags: &Flags) -> Result<usize, NoMemory>
    requires { spec.IsSized (shape_of model.now) flags.now }
    ensures { IfOk result (λ n. n ≡ counts.moves_of (shape_of model.now) flags.now) }
{
    match model {
        Model::Nothing => Ok(0),
        Model::Anything => Ok(0),
        Model::Text(_) => Ok(0),
        Model::Children(_, places) => moves_from(places.as_slice(), flags.members()),
    }
}
