//! Following edges.

ghost use Rattle.std.specs.Prelude.{◌≡◌, [], ◌∷◌, ◌≤◌, ◌<◌, ℕ, List, slice_get, IfSome, IfNone, OnOk, length};
ghost use Rattle.strong_components.specs.Edges.{AreWithin};
ghost use Rattle.strong_components.specs.Search.{waits, kept};
ghost use Rattle.strong_components.specs.Opening.{Opens, KeepsBut, IsLast, GoesOn};
ghost use Rattle.strong_components.specs.declared.marks.Waiting as waiting_edge;

use crate::marks::{Mark, Waiting};
use crate::order::Targets;
use crate::search::Search;
use text_base::{NoMemory, Stack};

/// The last value of the stack.
pub fn top(starts: &Stack<usize>) -> Option<usize>
    ensures { result ≡ slice_get starts.now 0 }
{
    starts.last().copied()
}

/// The edge that is to be followed next, where it leads from this place or from behind it.
pub fn next_edge(waiting: &mut Stack<Waiting>, start: usize) -> Option<Waiting>
    ensures some { IfSome result (λ w. (waiting.old ≡ w ∷ waiting.new) × (start ≤ w.from)) }
    ensures none { IfNone result (waiting.new ≡ waiting.old) }
    ensures before { IfNone result
        ((w : waiting_edge.Waiting) (rest : List waiting_edge.Waiting) → waiting.old ≡ w ∷ rest
        → w.from < start) }
{
    match waiting.last() {
        Some(edge) => {
            if edge.from < start {
                return None;
            }
        }
        None => return None,
    }
    waiting.pop()
}

/// Joins all groups that begin behind the place with the one that has it.
fn join(starts: &mut Stack<usize>, place: usize)
    ensures { starts.new ≡ kept place starts.old }
{
    while let Some(start) = top(starts) {
        if start <= place {
            return;
        }
        let _start = starts.pop();
    }
}

/// Puts the edges from the node at a place on the stack.
fn push_edges(waiting: &mut Stack<Waiting>, from: usize, targets: &[usize]) -> Result<(), NoMemory>
    ensures { OnOk result (waiting.new ≡ waits from targets.now waiting.old) }
{
    for to in targets {
        waiting.push(Waiting { from, to: *to })?;
    }
    Ok(())
}

/// Puts a node at the end of the path, as a group of its own.
pub fn open_node(search: &mut Search, edges: &[Targets], node: usize) -> Result<(), NoMemory>
    requires size { length search.old.marks.items ≡ length edges.now }
    requires node { node < length edges.now }
    ensures { OnOk result (Opens edges.now node search.old search.new) }
{
    let place = search.path.len();
    search.path.push(node)?;
    search.starts.push(place)?;
    push_edges(&mut search.waiting, place, edges[node].as_slice())?;
    search.marks[node] = Mark::Open(place);
    Ok(())
}

/// Follows an edge from the last group of the path.
pub fn follow(search: &mut Search, edges: &[Targets], edge: Waiting) -> Result<(), NoMemory>
    requires within { AreWithin edges.now }
    requires keeps { KeepsBut edges.now search.old edge }
    requires last { IsLast search.old.starts edge.from }
    ensures { OnOk result (GoesOn edges.now search.old search.new) }
{
    match search.marks[edge.to] {
        Mark::Done(_) => Ok(()),
        Mark::Open(place) => {
            join(&mut search.starts, place);
            Ok(())
        }
        Mark::New(_) => open_node(search, edges, edge.to),
    }
}
