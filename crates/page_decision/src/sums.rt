//! The summary of page tokens that goes with a goal.

ghost use Rattle.std.specs.Prelude.{IfOk, IfErr};
ghost use Rattle.dtd_model.specs.TableOf.{table_of};
ghost use Rattle.content_automata.specs.Decides.{shapes_in};
ghost use Rattle.content_automata.specs.Refusals.{IsCause};
ghost use Rattle.page_decision.specs.PageSums.{AreSumsOf};

use crate::Goal;
use content_automata::{ContentRefusal, build};
use dtd_model::Dtd;
use dyck_balance::Nesting;
use segment_summary::Segments;
use std::alloc::Global;

/// The summary of page tokens that tells which pages are good.
#[derive(Debug, Drop)]
pub enum PageSums {
    /// By the content models of a definition.
    BySegments(Segments),
    /// By nesting alone.
    ByNesting(Nesting),
}

/// The summary of the goal and the definition.
///
/// # Errors
///
/// `Limit` only where the content models of the definition pass a limit of content_automata.
/// `Memory` may come at any time.
pub fn sums_of(alloc: Global, dtd: &Dtd, goal: Goal) -> Result<PageSums, ContentRefusal>
    ensures sums { IfOk result (AreSumsOf goal (table_of dtd.now)) }
    ensures cause { IfErr result (IsCause (shapes_in (table_of dtd.now))) }
{
    match goal {
        Goal::Nested => Ok(PageSums::ByNesting(Nesting::new())),
        Goal::Valid => {
            let contents = build(alloc, dtd)?;
            match Segments::new(alloc, contents, dtd) {
                Ok(segments) => Ok(PageSums::BySegments(segments)),
                Err(_) => Err(ContentRefusal::Memory),
            }
        }
    }
}
