//! Putting places into a queue and drawing them.

ghost use Rattle.std.specs.Prelude.{◌≡◌, ◌<◌, ℕ, Contains, IfNone, IfSome, OnOk, []};
ghost use Rattle.short_sentences.specs.Queues.{waiting, waiting_count, Puts, Draws};

use crate::queue::Queue;
use std::alloc::{AllocError, Global};
use std::cmp::Reverse;
use std::collections::BinaryHeap;

impl Queue {
    /// Nothing waits.
    pub fn new(alloc: Global) -> Queue
        ensures { waiting result ≡ [] }
    {
        Queue {
            heap: BinaryHeap::new(alloc),
        }
    }

    /// Lets a place with a length wait. In logarithmic time.
    pub fn put(&mut self, length: u64, place: usize) -> Result<(), AllocError>
        ensures { OnOk result (Puts self.old self.new length place) }
    {
        self.heap.push(Reverse((length, place)))?;
        Ok(())
    }

    /// Draws a place with a least length; None exactly where none waits. In logarithmic time.
    pub fn draw(&mut self) -> Option<(u64, usize)>
        ensures draws { IfSome result (λ x. Draws self.old self.new x) }
        ensures fewer { IfSome result (λ _. waiting_count self.new < waiting_count self.old) }
        ensures none { IfNone result (waiting self.old ≡ []) }
    {
        match self.heap.pop() {
            Some(Reverse(first)) => Some(first),
            None => None,
        }
    }
}
