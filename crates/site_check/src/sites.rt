//! A whole site.

ghost use Rattle.std.specs.Prelude.{◌<◌, ◌≤◌, ◌+◌, ◌-◌, ◌^◌, map, string_bytes, IfOk};
ghost use Rattle.site_check.specs.declared.line.TheConstants.{MISSING_STATUS, FAULT_STATUS};
ghost use Rattle.site_check.specs.Site.{moment, Leads, AreAnswered, refused_by};

use crate::answers::Answers;
use crate::line::Line;
use io_edge::Files;
use std::alloc::Global;
use text_base::NoMemory;

/// The lines for the scripts of these names, one for each, in their order: each is an answer for
/// its script alone, whatever the other names are, and whichever of them were refused or met a
/// fault.
///
/// # Errors
///
/// Where memory is wanting.
pub fn site<F: Files, A: Answers>(
    alloc: Global,
    files: &mut F,
    answers: &A,
    names: &[String],
) -> Result<Vec<Line>, NoMemory>
    ensures answered { IfOk result (λ lines. AreAnswered (A.may answers.now)
        (moment (F.content files.old) (F.faults files.old) (F.misses files.old))
        (moment (F.content files.new) (F.faults files.new) (F.misses files.new))
        (map string_bytes names.now) lines.items) }
    ensures leads { Leads (moment (F.content files.old) (F.faults files.old) (F.misses files.old))
        (moment (F.content files.new) (F.faults files.new) (F.misses files.new)) }

    // No more lines tell a missing file, or one that could not be read, than were counted, unless
    // the count stands at the largest number.
    ensures missing { F.misses files.new < 2 ^ 64 - 1 → IfOk result
        (λ lines. refused_by MISSING_STATUS lines.items + F.misses files.old ≤ F.misses files.new) }
    ensures failed { F.faults files.new < 2 ^ 64 - 1 → IfOk result
        (λ lines. refused_by FAULT_STATUS lines.items + F.faults files.old ≤ F.faults files.new) }
{
    let mut lines = Vec::new(alloc);
    for name in names {
        let line = answers.answer(alloc, files, name.as_str())?;
        lines.push(line)?;
    }
    Ok(lines)
}
