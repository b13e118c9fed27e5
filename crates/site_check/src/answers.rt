//! How scripts of a site are answered.

ghost use Rattle.std.specs.Prelude.{ℕ, List, IfOk};
ghost use Rattle.io_edge.specs.Told.{Content};
ghost use Rattle.site_check.specs.declared.line.Line.{Line as PlainLine};
ghost use Rattle.site_check.specs.Site.{moment, Leads, IsAnswered};

use crate::line::Line;
use io_edge::Files;
use std::alloc::Global;
use text_base::NoMemory;

/// What answers for scripts by their names, of any source of files.
pub trait Answers {
    /// Which lines may be answered for a name, by what a source tells behind the call.
    ghost may: { Self → Content → List ℕ → PlainLine → Type 0 };

    /// The line for the script of this name.
    ///
    /// # Errors
    ///
    /// Where memory is wanting.
    fn answer<F: Files>(&self, alloc: Global, files: &mut F, name: &str) -> Result<Line, NoMemory>
        ensures answered { IfOk result (IsAnswered (may self.now)
            (moment (F.content files.old) (F.faults files.old) (F.misses files.old))
            (moment (F.content files.new) (F.faults files.new) (F.misses files.new)) name.now) }
        ensures leads { Leads
            (moment (F.content files.old) (F.faults files.old) (F.misses files.old))
            (moment (F.content files.new) (F.faults files.new) (F.misses files.new)) };
}
