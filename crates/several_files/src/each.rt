//! `check` of several files.

ghost use Rattle.phpsa_tasks.specs.Call.{output_of};
ghost use Rattle.several_files.specs.Endings.{ChecksEach, IsCountOr, IsReportOr, IsSiteOr, moment_of};
ghost use Rattle.several_files.specs.Views.{checks_as};

use crate::answers::told;
use crate::call_files::CallFiles;
use crate::calls::answers_for;
use crate::checks::Checks;
use crate::lines::{report, report_status};
use crate::listing::{asks_json, list_for, site_words};
use crate::telling::{refuse, tell};
use io_edge::{Files, Sink};
use phpsa_main::phpsa;
use phpsa_texts::{Exit, Message, Refusal, list_refusal};
use site_check::{ListRefusal, NAMES_LIMIT};
use std::alloc::Global;
use text_base::NoMemory;

/// The report on the files, all of it.
///
/// # Errors
///
/// What the call on one of them says that ends the whole one; and `Memory`.
fn report_on<F: Files>(
    alloc: Global,
    checks: &Checks,
    files: &mut CallFiles<F>,
) -> Result<Message, Refusal>
    ensures { IsReportOr (checks_as checks.now) (moment_of F.content F.faults F.misses files.old)
        (moment_of F.content F.faults F.misses files.new) result }
{
    let options = checks.options.as_slice();
    let answers = answers_for(alloc, options, checks.files.as_slice(), files)?;
    let told = told(alloc, answers.as_slice())?;
    let text = report(alloc, told.as_slice())?;
    Ok(Message {
        status: report_status(told.as_slice()),
        text,
    })
}

/// Why so many names are too few or too many, if they are.
fn miscount(alloc: Global, count: usize) -> Option<Refusal>
    ensures { IsCountOr count result }
{
    let refusal = ListRefusal::Names {
        count: count as u64,
    };
    if count == 0 {
        return Some(list_refusal(alloc, refusal));
    }
    if count > NAMES_LIMIT {
        return Some(list_refusal(alloc, refusal));
    }
    None
}

/// The report of `site` on the files.
fn site<F: Files, O: Sink, E: Sink>(
    alloc: Global,
    checks: &Checks,
    files: &mut CallFiles<F>,
    out: &mut O,
    err: &mut E,
) -> Exit
    ensures { IsSiteOr (checks_as checks.now) (moment_of F.content F.faults F.misses files.old)
        (moment_of F.content F.faults F.misses files.new)
        (output_of (O.written out.old) (O.written out.new) (O.faults out.old) (O.faults out.new))
        (output_of (E.written err.old) (E.written err.new) (E.faults err.old) (E.faults err.new))
        result }
{
    let words = match site_words(alloc, checks.options.as_slice()) {
        Ok(words) => words,
        Err(NoMemory) => return refuse(&Refusal::Memory, err),
    };
    match list_for(alloc, checks, files) {
        Ok(list) => {
            files.hold(list);
            phpsa(alloc, &words, files, out, err)
        }
        Err(refusal) => refuse(&refusal, err),
    }
}

/// Checks each of the files by a call of its own, one behind another, and writes the report on
/// them; the report of `site` where `--json` is asked for.
///
/// A line for each file stands on the output, `NAME: ` and the first line of its answer, or why it
/// is refused, and last the sums. Of the files that were found in a folder those are left out that
/// are read for another one as a part of it. There are 1 to 1,000 files. What is wrong with the
/// words, a write fault and want of memory end the whole call.
pub fn check_each<F: Files, O: Sink, E: Sink>(
    alloc: Global,
    checks: &Checks,
    files: &mut CallFiles<F>,
    out: &mut O,
    err: &mut E,
) -> Exit
    ensures { ChecksEach (checks_as checks.now) (moment_of F.content F.faults F.misses files.old)
        (moment_of F.content F.faults F.misses files.new)
        (output_of (O.written out.old) (O.written out.new) (O.faults out.old) (O.faults out.new))
        (output_of (E.written err.old) (E.written err.new) (E.faults err.old) (E.faults err.new))
        result }
{
    let names = checks.files.as_slice();
    if let Some(refusal) = miscount(alloc, names.len()) {
        return refuse(&refusal, err);
    }
    if asks_json(checks.options.as_slice()) {
        return site(alloc, checks, files, out, err);
    }
    tell(&report_on(alloc, checks, files), out, err)
}
