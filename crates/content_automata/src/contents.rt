//! The automata of all elements.

ghost use Rattle.std.specs.Prelude.{◌≡◌, ◌≤◌, ◌<◌, ◌↔◌, IsTrue, length, map, IfOk, IfErr, OnOk};
ghost use Rattle.dtd_model.specs.declared.dtd.ElementRule.{ElementRule};
ghost use Rattle.dtd_model.specs.Table.{holding_of};
ghost use Rattle.content_automata.specs.declared.limits.TheConstants.{STATE_LIMIT, PAIR_LIMIT, MOVE_LIMIT};
ghost use Rattle.content_automata.specs.Shapes.{shape};
ghost use Rattle.dtd_model.specs.TableOf.{table_of};
ghost use Rattle.content_automata.specs.Tables as spec;
ghost use Rattle.content_automata.specs.Tables.{AreSized, IsTable, Key};
ghost use Rattle.content_automata.specs.Refusals.{IsCause};
ghost use Rattle.content_automata.specs.Counts.{pairs_in, HaveFewMoves};
ghost use Rattle.content_automata.specs.Decides.{shapes_in, Decides, TellsApart, HasOwners, GoesOn, ReachesAll};
ghost use Rattle.content_automata.specs.Views.{shapes_of};

use crate::Flags;
use crate::counts::all_pairs;
use crate::explore::{State, begin, explore};
use crate::limits::PAIR_LIMIT;
use crate::model::{Model as Allowed, model_of_content};
use crate::refusal::ContentRefusal;
use dtd_model::{Dtd, ElementRule};
use indexmap::IndexSet;
use std::alloc::Global;
use std::marker::Model;
use text_base::{Elem, NoMemory};

/// The automata of the content models of a document type definition. Contracts see them as a
/// table: the numbers of the states that elements begin in, for each state whether a match may
/// end there and the state behind each element, and the element of each state.
#[derive(Debug, Drop)]
pub struct Contents {
    firsts: Vec<u16>,
    states: Vec<State>,
    owners: Vec<u64>,
}

impl Model for Contents {
    ghost use Rattle.std.specs.Prelude.{ℕ, Bool, List, Option, map};
    ghost use Rattle.content_automata.specs.Views.{row_of};

    ghost Value = { List ℕ × List (Bool × List (Option ℕ)) × List ℕ };

    ghost view = { λ c. (c.firsts.items, map row_of c.states.items, c.owners.items) };
}

fn models(alloc: Global, elements: &[ElementRule]) -> Result<Vec<Allowed>, NoMemory>
    ensures { IfOk result
        (λ v. shapes_of v.items
        ≡ map (λ (r : ElementRule). shape (holding_of r.content)) elements.now) }
{
    let mut models = Vec::new(alloc);
    for element in elements {
        models.push(model_of_content(alloc, &element.content)?)?;
    }
    Ok(models)
}

// The elements of the states, by their places.
fn owners_of(alloc: Global, keys: &IndexSet<(u64, Flags)>) -> Result<Vec<u64>, NoMemory>
    ensures { IfOk result (λ v. v.items ≡ map (λ (k : Key). k.0) keys.now.keys) }
{
    let mut owners = Vec::new(alloc);
    for number in 0..keys.len() {
        match keys.get_index(number) {
            Some(key) => owners.push(key.0)?,
            None => unreachable!(),
        }
    }
    Ok(owners)
}

// The table of these models.
fn tabled(alloc: Global, models: &[Allowed]) -> Result<Contents, ContentRefusal>
    requires { AreSized (shapes_of models.now) }
    ensures table { IfOk result (λ c. IsTable (shapes_of models.now) c) }
    ensures few { IfOk result (λ c. length c.1 ≤ STATE_LIMIT) }
    ensures moves { IfOk result
        (λ c. HaveFewMoves (shapes_of models.now) (length c.1) MOVE_LIMIT) }
    ensures limit { IfErr result (IsCause (shapes_of models.now)) }
{
    let mut keys = IndexSet::new(alloc);
    let firsts = match begin(alloc, models, &mut keys) {
        Ok(firsts) => firsts,
        Err(refusal) => return Err(refusal),
    };
    let states = match explore(alloc, models, &mut keys) {
        Ok(states) => states,
        Err(refusal) => return Err(refusal),
    };
    let owners = owners_of(alloc, &keys)?;
    Ok(Contents {
        firsts,
        states,
        owners,
    })
}

// The pairs of the content models are within the limit, or why no table is built. So it is known
// before any of them takes memory.
fn within_limit(elements: &[ElementRule]) -> Result<(), ContentRefusal>
    ensures pairs { OnOk result
        (pairs_in (map (λ (r : ElementRule). shape (holding_of r.content)) elements.now) ≤ PAIR_LIMIT) }
    ensures limit { IfErr result
        (IsCause (map (λ (r : ElementRule). shape (holding_of r.content)) elements.now)) }
{
    let pairs = all_pairs(elements)?;
    if pairs > PAIR_LIMIT {
        return Err(ContentRefusal::Limit {
            count: pairs as u64,
        });
    }
    Ok(())
}

// The models, where their pairs are within the limit.
fn limited(alloc: Global, elements: &[ElementRule]) -> Result<Vec<Allowed>, ContentRefusal>
    ensures models { IfOk result (λ v. shapes_of v.items
        ≡ map (λ (r : ElementRule). shape (holding_of r.content)) elements.now) }
    ensures pairs { OnOk result
        (pairs_in (map (λ (r : ElementRule). shape (holding_of r.content)) elements.now) ≤ PAIR_LIMIT) }
    ensures limit { IfErr result
        (IsCause (map (λ (r : ElementRule). shape (holding_of r.content)) elements.now)) }
{
    match within_limit(elements) {
        Ok(()) => {}
        Err(refusal) => return Err(refusal),
    }
    let models = models(alloc, elements)?;
    Ok(models)
}

/// The automata of the content models of a definition.
///
/// # Errors
///
/// `Limit` only where the content models have over 4,096 states, over 4,194,304 pairs of positions
/// of which the second may come behind the first, or states with over 16,777,216 moves. The pairs
/// are counted before a position is put down, the moves of a state before it is left. `Memory` may
/// come at any time.
pub fn build(alloc: Global, dtd: &Dtd) -> Result<Contents, ContentRefusal>
    ensures decides { IfOk result (λ c. Decides (table_of dtd.now) c) }
    ensures apart { IfOk result (λ c. TellsApart (table_of dtd.now) c) }
    ensures owners { IfOk result (λ c. HasOwners (length (table_of dtd.now).elements) c) }
    ensures goes_on { IfOk result (λ c. GoesOn (table_of dtd.now) c) }
    ensures reached { IfOk result (λ c. ReachesAll (length (table_of dtd.now).elements) c) }
    ensures few { IfOk result (λ c. length c.1 ≤ STATE_LIMIT) }
    ensures elements { IfOk result (λ c. length c.0 ≡ length (table_of dtd.now).elements) }
    ensures pairs { OnOk result (pairs_in (shapes_in (table_of dtd.now)) ≤ PAIR_LIMIT) }
    ensures moves { IfOk result
        (λ c. HaveFewMoves (shapes_in (table_of dtd.now)) (length c.1) MOVE_LIMIT) }
    ensures limit { IfErr result (IsCause (shapes_in (table_of dtd.now))) }
{
    let models = match limited(alloc, dtd.elements.as_slice()) {
        Ok(models) => models,
        Err(refusal) => return Err(refusal),
    };
    match tabled(alloc, models.as_slice()) {
        Ok(contents) => Ok(contents),
        Err(refusal) => Err(refusal),
    }
}

impl Contents {
    /// How many states there are; they are the numbers below.
    pub fn len(&self) -> usize
        ensures { result ≡ length self.now.1 }
    {
        self.states.len()
    }

    /// Whether there is no state.
    pub fn is_empty(&self) -> bool
        ensures { IsTrue result ↔ (length self.now.1 ≡ 0) }
    {
        self.states.is_empty()
    }

    /// The place of the element that a state belongs to; 0 for a number that is no state.
    pub fn owner(&self, state: u16) -> u64
        ensures { result ≡ spec.owner_at self.now state }
    {
        match self.owners.get(usize::from(state)) {
            Some(owner) => *owner,
            None => 0,
        }
    }

    /// The number of the state that an element begins in.
    pub fn init(&self, element: Elem) -> u16
        requires { element.0 < length self.now.0 }
        ensures { result ≡ spec.first_at self.now element.0 }
    {
        self.firsts[usize::from(element.0)]
    }

    /// The state behind a child; none where no list of children that goes on so is a match.
    pub fn step(&self, state: u16, child: Elem) -> Option<u16>
        ensures { result ≡ spec.next_at self.now state child.0 }
    {
        let state = self.states.get(usize::from(state))?;
        match state.behind.get(usize::from(child.0)) {
            Some(next) => *next,
            None => None,
        }
    }

    /// Whether a list of children that leads to the state is a match.
    pub fn accepts(&self, state: u16) -> bool
        ensures { result ≡ spec.ends_at self.now state }
    {
        match self.states.get(usize::from(state)) {
            Some(state) => state.ends,
            None => false,
        }
    }
}
