//! The decision by the reader of pages.

ghost use Rattle.std.specs.Prelude.{IfOk, IfErr};
ghost use Rattle.dtd_model.specs.TableOf.{table_of};
ghost use Rattle.program_rules.specs.View.{program_of};
ghost use Rattle.way_reader.specs.PageWays.{ArePageWays};
ghost use Rattle.script_decision.specs.Answers.{SaysOfRuns};
ghost use Rattle.script_decision.specs.Decision.{IsAnswerOf, IsCheckRefusal};

use crate::Answer;
use crate::reader::PageWays;
use crate::reading::check_by;
use crate::refusal::CheckRefusal;
use dtd_index::IndexedDtd;
use dtd_model::Dtd;
use page_decision::Goal;
use program_rules::Program;
use std::alloc::Global;
use way_reader::{PieceWays, WayReader, pages_are_read, whole_forms_have_texts};

/// The answer by the ways of a definition's pages.
fn check_ways(
    alloc: Global,
    program: &Program,
    pages: &PageWays<'_>,
    goal: Goal,
    pairs: u64,
) -> Result<Answer, CheckRefusal>
    requires { ArePageWays (table_of pages.now.dtd.now) pages.now.ways.now }
    ensures answer { IfOk result
        (IsAnswerOf goal (table_of pages.now.dtd.now) (program_of program.now) pairs) }
    ensures sound { IfOk result
        (SaysOfRuns goal (table_of pages.now.dtd.now) (program_of program.now)) }
    ensures refusal { IfErr result
        (IsCheckRefusal (table_of pages.now.dtd.now) (program_of program.now)) }
{
    whole_forms_have_texts();
    pages_are_read();
    let reader = WayReader { ways: pages.ways };
    check_by(alloc, program, pages.dtd, goal, reader, pairs)
}

/// The answer by the definition of an index.
fn check_indexed(
    alloc: Global,
    program: &Program,
    indexed: &IndexedDtd,
    goal: Goal,
    pairs: u64,
) -> Result<Answer, CheckRefusal>
    ensures answer { IfOk result
        (IsAnswerOf goal (table_of indexed.now.dtd.now) (program_of program.now) pairs) }
    ensures sound { IfOk result
        (SaysOfRuns goal (table_of indexed.now.dtd.now) (program_of program.now)) }
    ensures refusal { IfErr result
        (IsCheckRefusal (table_of indexed.now.dtd.now) (program_of program.now)) }
{
    let ways = PieceWays::of_pages(alloc, indexed)?;
    let pages = PageWays {
        dtd: indexed.dtd,
        ways: &ways,
    };
    check_ways(alloc, program, &pages, goal, pairs)
}

/// Whether each loose page of the program is good by the goal and the definition, with at most
/// `pairs` different sums of sentences a nonterminal. A yes says that each run that ends prints a
/// good page, for every admitted request and every number of units.
///
/// # Errors
///
/// `LongText` only where a text literal of the program has over 16,777,216 bytes; `Limit` only
/// where the content models of the definition pass a limit. `Memory` may come at any
/// time.
pub fn check(
    alloc: Global,
    program: &Program,
    dtd: &Dtd,
    goal: Goal,
    pairs: u64,
) -> Result<Answer, CheckRefusal>
    ensures answer { IfOk result (IsAnswerOf goal (table_of dtd.now) (program_of program.now) pairs) }
    ensures sound { IfOk result (SaysOfRuns goal (table_of dtd.now) (program_of program.now)) }
    ensures refusal { IfErr result (IsCheckRefusal (table_of dtd.now) (program_of program.now)) }
{
    let indexed = IndexedDtd::new(alloc, dtd)?;
    check_indexed(alloc, program, &indexed, goal, pairs)
}
