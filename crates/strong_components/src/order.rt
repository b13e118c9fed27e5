//! A walk over the nodes, depth first.

ghost use Rattle.std.specs.Prelude.{◌≡◌, ◌<◌, ◌≤◌, ℕ, [], ◌∷◌, ◌++◌, length, IfOk, IfErr, OnOk, Some, slice_get};
ghost use Rattle.std.specs.List.{Contains, sum_by};
ghost use Rattle.strong_components.specs.Edges.{AreWithin, IsOrder, IsCause};
ghost use Rattle.strong_components.specs.Walk.{weight_of, IsWalk, GoesOn, LeadHere};
ghost use Rattle.strong_components.specs.declared.order.Mark.TheVariants.{New, Done};

use smallvec::SmallVec;
use std::alloc::Global;
use text_base::NoMemory;
use thiserror::Error;

/// The nodes that the edges from one node lead to. Up to two take no memory of their own.
pub type Targets = SmallVec<usize, 2>;

/// Why there is no order.
#[derive(Clone, Copy, Debug, PartialEq, Eq, Error)]
pub enum OrderRefusal {
    /// Edges lead from this node back to it.
    #[error("edges lead from node {0} back to it")]
    Cycle(usize),
    /// No memory was left.
    #[error("out of memory")]
    Memory,
}

impl From<NoMemory> for OrderRefusal {
    ghost use Rattle.strong_components.specs.declared.order.OrderRefusal.TheVariants.{Memory};

    ghost from_gives = { λ _ refusal. refusal ≡ Memory };

    fn from(_: NoMemory) -> Self {
        OrderRefusal::Memory
    }
}

// How far a walk has come with a node.
#[derive(Clone, Copy, Debug)]
enum Mark {
    New,
    Open,
    Done,
}

/// The nodes, each behind all those that its edges lead to, directly or through others. `edges`
/// lists for each node, by its number from 0, which nodes its edges lead to.
///
/// Takes time linear in the number of nodes and edges, and calls itself as deep as there are nodes
/// in a row.
///
/// # Errors
///
/// `Cycle` with a node from which edges lead back to it, and `Memory`.
pub fn order_of(alloc: Global, edges: &[Targets]) -> Result<Vec<usize>, OrderRefusal>
    requires { AreWithin edges.now }
    ensures order { IfOk result (λ order. IsOrder edges.now order.items) }
    ensures cycle { IfErr result (IsCause edges.now) }
{
    let mut marks = new_marks(alloc, edges)?;
    let mut order = Vec::new(alloc);
    for node in 0..edges.len() {
        match marks[node] {
            Mark::New => visit(edges, &mut marks, &mut order, node)?,
            Mark::Open => continue,
            Mark::Done => continue,
        }
    }
    Ok(order)
}

// Each node is new.
fn new_marks(alloc: Global, edges: &[Targets]) -> Result<Vec<Mark>, NoMemory>
    ensures size { IfOk result (λ marks. length marks.items ≡ length edges.now) }
    ensures all { IfOk result
        (λ marks. (node : ℕ) → node < length marks.items → slice_get marks.items node ≡ Some New) }
{
    let mut marks = Vec::new(alloc);
    for _edge in edges {
        marks.push(Mark::New)?;
    }
    Ok(marks)
}

// Does this new node, and first each that its edges lead to.
fn visit(
    edges: &[Targets],
    marks: &mut Vec<Mark>,
    order: &mut Vec<usize>,
    node: usize,
) -> Result<(), OrderRefusal>
    requires inside { AreWithin edges.now }
    requires walk { IsWalk edges.now marks.old.items order.old.items }
    requires here { LeadHere edges.now marks.old.items node }
    requires new { slice_get marks.old.items node ≡ Some New }
    ensures walk { OnOk result (IsWalk edges.now marks.new.items order.new.items) }
    ensures goes_on { OnOk result (GoesOn marks.old.items marks.new.items) }
    ensures done { OnOk result (slice_get marks.new.items node ≡ Some Done) }
    ensures fewer { OnOk result
        (sum_by weight_of marks.new.items ≤ sum_by weight_of marks.old.items) }
    ensures cycle { IfErr result (IsCause edges.now) }
{
    marks[node] = Mark::Open;
    let targets = edges[node].as_slice();
    for target in targets {
        match marks[*target] {
            Mark::Done => continue,
            Mark::Open => return Err(OrderRefusal::Cycle(*target)),
            Mark::New => visit(edges, marks, order, *target)?,
        }
    }
    put(order, node)?;
    marks[node] = Mark::Done;
    Ok(())
}

// One more node at the end.
fn put(order: &mut Vec<usize>, node: usize) -> Result<(), NoMemory>
    ensures { OnOk result (order.new.items ≡ order.old.items ++ node ∷ []) }
{
    order.push(node)?;
    Ok(())
}
