//! Single steps on the parts of a chart.

ghost use Rattle.std.specs.Prelude.{◌≡◌, ◌⊎◌, ◌<◌, ◌++◌, ℕ, List, All, Contains, OnOk, IfOk, Some, map, slice_get, length, vec_len};
ghost use Rattle.numbered_sets.specs.Numbers.{Keeps};
ghost use Rattle.grammar_chart.specs.Rules.{read_on, begun_at};
ghost use Rattle.numbered_sets.specs.Chains.{AreChains, Falls};
ghost use Rattle.grammar_chart.specs.Adding.{AddsPlaces};
ghost use Rattle.grammar_chart.specs.Visits.{VisitsGrow, AddsWaiting, AddsExit};
ghost use Rattle.grammar_chart.specs.declared.keys.Read.TheVariants.{Nothing};

use crate::keys::{Begun, Entry, Read};
use crate::rules::advanced;
use indexmap::IndexSet;
use numbered_sets::{Chains, number};
use smallvec::SmallVec;
use std::alloc::Global;
use text_base::NoMemory;

/// What is kept of an entry. Most have one of each, which needs no allocation.
#[derive(Drop)]
pub struct Visit {
    /// The numbers of the begun productions that wait for its symbol there.
    pub waiting: SmallVec<u64, 1>,
    /// The states in which it is left.
    pub exits: SmallVec<u64, 1>,
}

/// The begun production with a number, if there is one.
pub fn begun_at(begun: &[Begun], number: usize) -> Option<Begun>
    ensures { result ≡ slice_get begun.now number }
{
    begun.get(number).copied()
}

/// Adds what a begun production becomes by each of the exits of the symbol that it waits for.
pub fn advance_over(begun: &mut Vec<Begun>, one: Begun, exits: &[u64]) -> Result<(), NoMemory>
    ensures { OnOk result
        (begun.new.items ≡ begun.old.items ++ map (λ t. read_on one t) exits.now) }
{
    for exit in exits {
        begun.push(advanced(one, *exit))?;
    }
    Ok(())
}

/// Adds what each of the begun productions with these numbers becomes by an exit of the symbol that
/// they wait for.
pub fn advance_all(begun: &mut Vec<Begun>, waiting: &[u64], exit: u64) -> Result<(), NoMemory>
    requires { All (λ n. n < length begun.old.items) waiting.now }
    ensures { OnOk result
        (begun.new.items
        ≡ begun.old.items ++ map (λ n. read_on (begun_at begun.old.items n) exit) waiting.now) }
{
    for number in waiting {
        let Some(one) = begun_at(begun.as_slice(), *number as usize) else {
            unreachable!()
        };
        begun.push(advanced(one, exit))?;
    }
    Ok(())
}

/// Adds the productions at the places of a number, of which nothing is read yet.
pub fn begin_all(
    begun: &mut Vec<Begun>,
    places: &Chains,
    left: u64,
    from: u64,
) -> Result<(), NoMemory>
    requires below { left < length places.now.last.items }
    requires falls { Falls places.now.before.items }
    ensures { OnOk result
        ((keys : List ℕ) → AreChains keys places.now.last.items places.now.before.items
        → AddsPlaces begun.old.items begun.new.items keys left
        (λ p. record { place = p; from = from; read = Nothing })) }
{
    let mut place = places.last_place(left);
    while let Some(before) = places.place_before(place) {
        begun.push(Begun {
            place: place as u64,
            from,
            read: Read::Nothing,
        })?;
        place = before;
    }
    Ok(())
}

/// The number of an entry, a new one with nothing kept of it if it has none.
pub fn enter(
    alloc: Global,
    entries: &mut IndexSet<Entry>,
    visits: &mut Vec<Visit>,
    entry: Entry,
) -> Result<usize, NoMemory>
    requires { vec_len visits.old ≡ length entries.old.keys }
    ensures number { IfOk result (λ n. slice_get entries.new.keys n ≡ Some entry) }
    ensures keeps { OnOk result (Keeps entries.old.keys entries.new.keys) }
    ensures adds { OnOk result
        ((x : Entry) → Contains entries.new.keys x → Contains entries.old.keys x ⊎ (x ≡ entry)) }
    ensures len { OnOk result (vec_len visits.new ≡ length entries.new.keys) }
    ensures grows { OnOk result (VisitsGrow visits.old.items visits.new.items) }
{
    let (place, is_new) = number(entries, entry)?;
    if is_new {
        visits.push(Visit {
            waiting: SmallVec::new(alloc),
            exits: SmallVec::new(alloc),
        })?;
    }
    Ok(place)
}

/// Notes that the begun production with a number waits at an entry.
pub fn wait(visits: &mut Vec<Visit>, at: usize, one: u64) -> Result<(), NoMemory>
    requires { at < vec_len visits.old }
    ensures len { vec_len visits.new ≡ vec_len visits.old }
    ensures adds { OnOk result (AddsWaiting visits.old.items visits.new.items at one) }
{
    visits[at].waiting.push(one)?;
    Ok(())
}

/// Notes that an entry is left in a state.
pub fn leave(visits: &mut Vec<Visit>, at: usize, exit: u64) -> Result<(), NoMemory>
    requires { at < vec_len visits.old }
    ensures len { vec_len visits.new ≡ vec_len visits.old }
    ensures adds { OnOk result (AddsExit visits.old.items visits.new.items at exit) }
{
    visits[at].exits.push(exit)?;
    Ok(())
}
