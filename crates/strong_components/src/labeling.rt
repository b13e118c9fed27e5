//! The components of a whole graph.

ghost use Rattle.std.specs.Prelude.{◌≡◌, [], ◌<◌, ℕ, map, slice_get, IfOk, OnOk, length, Some};
ghost use Rattle.strong_components.specs.Edges.{AreWithin};
ghost use Rattle.strong_components.specs.Components.{AreComponents};
ghost use Rattle.strong_components.specs.Search.{number_in};
ghost use Rattle.strong_components.specs.Opening.{Keeps, GoesOn, IsMet, work_of};

use crate::closing::close;
use crate::marks::Mark;
use crate::opening::{follow, next_edge, open_node, top};
use crate::order::Targets;
use crate::search::Search;
use std::alloc::Global;
use text_base::NoMemory;

/// Follows the next edge from the last group of the path, which begins at the place, or closes that
/// group.
fn step(search: &mut Search, edges: &[Targets], start: usize) -> Result<(), NoMemory>
    requires within { AreWithin edges.now }
    requires keeps { Keeps edges.now search.old }
    requires last { slice_get search.old.starts 0 ≡ Some start }
    ensures goes_on { OnOk result (GoesOn edges.now search.old search.new) }
    ensures work { OnOk result (work_of search.new < work_of search.old) }
{
    match next_edge(&mut search.waiting, start) {
        Some(edge) => follow(search, edges, edge),
        None => close(search, start),
    }
}

/// Goes through all that is reached from a node, where it is new.
fn explore(search: &mut Search, edges: &[Targets], node: usize) -> Result<(), NoMemory>
    requires within { AreWithin edges.now }
    requires keeps { Keeps edges.now search.old }
    requires none { search.old.starts ≡ [] }
    requires node { node < length edges.now }
    ensures goes_on { OnOk result (GoesOn edges.now search.old search.new) }
    ensures none { OnOk result (search.new.starts ≡ []) }
    ensures met { OnOk result (IsMet search.new.marks.items node) }
{
    match search.marks[node] {
        Mark::New(_) => open_node(search, edges, node)?,
        Mark::Open(_) => return Ok(()),
        Mark::Done(_) => return Ok(()),
    }
    while let Some(start) = top(&search.starts) {
        step(search, edges, start)?;
    }
    Ok(())
}

/// The number of a node's component.
fn number_of(mark: Mark) -> usize
    ensures { result ≡ number_in mark }
{
    match mark {
        Mark::New(_) => 0,
        Mark::Open(_) => 0,
        Mark::Done(number) => number,
    }
}

/// The numbers of the components of all nodes.
fn numbers_of(alloc: Global, marks: &[Mark]) -> Result<Vec<usize>, NoMemory>
    ensures { IfOk result (λ numbers. numbers.items ≡ map number_in marks.now) }
{
    let numbers = marks.iter().map(|mark| number_of(*mark)).collect(alloc)?;
    Ok(numbers)
}

/// The number of each node's component. Nodes have one number exactly where edges lead from each to
/// the other, and an edge leads to no higher number. `edges` lists for each node, by its number
/// from 0, which nodes its edges lead to.
///
/// Takes time and memory linear in the number of nodes and edges.
pub fn components(alloc: Global, edges: &[Targets]) -> Result<Vec<usize>, NoMemory>
    requires { AreWithin edges.now }
    ensures { IfOk result (λ numbers. AreComponents edges.now numbers.items) }
{
    let mut search = Search::new(alloc, edges)?;
    for node in 0..edges.len() {
        explore(&mut search, edges, node)?;
    }
    numbers_of(alloc, search.marks.as_slice())
}
