//! Drawing the next pair.

ghost use Rattle.std.specs.Prelude.{◌≡◌, ◌↔◌, false, Some, slice_get, IsTrue, IfNone, IfSome};
ghost use Rattle.short_sentences.specs.declared.table.Draft.{Draft};
ghost use Rattle.short_sentences.specs.Tables.{AreQueued};
ghost use Rattle.short_sentences.specs.Taking.{AreAllTaken, IsNext};

use crate::queue::Queue;
use crate::table::Draft;

/// Whether the draft at a place is not taken up and has the length.
fn is_open(drafts: &[Draft], length: u64, place: usize) -> bool
    ensures { IsTrue result ↔ ((d : Draft) × (slice_get drafts.now place ≡ Some d) × (d.is_taken ≡
        false) × (d.length ≡ length)) }
{
    match drafts.get(place) {
        Some(draft) => !draft.is_taken && draft.length == length,
        None => false,
    }
}

/// Draws the place of a draft that is not taken up, of which none is shorter; None exactly where
/// all are taken up.
pub(crate) fn next(queue: &mut Queue, drafts: &[Draft]) -> Option<usize>
    requires { AreQueued drafts.now queue.old }
    ensures some { IfSome result (λ place. IsNext drafts.now queue.new place) }
    ensures none { IfNone result (AreAllTaken drafts.now) }
{
    while let Some((length, place)) = queue.draw() {
        if is_open(drafts, length, place) {
            return Some(place);
        }
    }
    None
}
