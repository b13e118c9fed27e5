//! The type of queues.

ghost use Rattle.std.specs.BinaryHeap.{IsHeap, heap_items};
ghost use Rattle.std.specs.Ordering.{nat_cmp, ordering_then};
ghost use Rattle.std.proofs.Props.{props};

use std::cmp::Reverse;
use std::collections::BinaryHeap;

/// Places with lengths, of which one with a least length comes first. The type keeps their order.
#[derive(Drop)]
pub struct Queue {
    pub(crate) heap: BinaryHeap<Reverse<(u64, usize)>>,
    ghost ordered: { IsHeap (λ x y. ordering_then (nat_cmp y.0.0 x.0.0) (nat_cmp y.0.1 x.0.1)) (heap_items heap) } by { Prim.hlevel props },
}
