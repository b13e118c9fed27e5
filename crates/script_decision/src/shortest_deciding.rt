//! From a program to the answer.

ghost use Rattle.std.specs.Prelude.{ℕ, IfOk, IfErr};
ghost use Rattle.cfg_grammar.specs.declared.grammar.Grammar as grammars;
ghost use Rattle.dtd_model.specs.Table.{Table};
ghost use Rattle.dtd_model.specs.TableOf.{table_of};
ghost use Rattle.broken_readers.specs.Laws.{WayStep};
ghost use Rattle.flow_runs.specs.Texts.{TextsFit};
ghost use Rattle.grammar_image.specs.Refusals.{IsCause};
ghost use Rattle.loose_grammar.specs.Pages.{IsPageGrammar};
ghost use Rattle.page_decision.specs.PageSums.{AreSumsOf};
ghost use Rattle.page_decision.specs.declared.goal.Goal as goals;
ghost use Rattle.program_rules.specs.View.{program_of};
ghost use Rattle.script_decision.specs.Decision.{IsCheckRefusal};
ghost use Rattle.script_meaning.specs.Programs.{PlainProgram};
ghost use Rattle.script_decision.specs.ShortestAnswers.{IsShortestAnswer, SaysOfRuns};
ghost use Rattle.script_decision.specs.ShortestBelow.{IsFound};
ghost use Rattle.way_reader.specs.PageWays.{ArePageWays};
ghost use Rattle.way_reader.specs.Reader.{starts_at};
ghost use Rattle.way_reader.specs.Ways.{first_state};
ghost use Rattle.way_reader.specs.declared.reader.PieceWays as declared;

use crate::echo_laws::is_page_machine;
use crate::laws::good_loose_pages_make_good_runs;
use crate::reader::PageWays;
use crate::refusal::CheckRefusal;
use crate::shortest_answer::ShortestAnswer;
use crate::showing_pages::show_page;
use cfg_grammar::Grammar;
use content_automata::ContentRefusal;
use dtd_index::IndexedDtd;
use dtd_model::Dtd;
use echoing_machine::Echoing;
use grammar_image::ImageRefusal;
use loose_grammar::{GrammarRefusal, ITEM_LIMIT, loose_grammar};
use page_decision::{Goal, PageSums, sums_of};
use program_rules::Program;
use short_page::{ShortAnswer, shortest_page};
use std::alloc::Global;
use text_base::NoMemory;
use way_reader::{PieceWays, WayReader};

/// What was found of the pages of a grammar, as it is shown.
fn show(alloc: Global, found: ShortAnswer) -> Result<ShortestAnswer, NoMemory>
    ensures { IfOk result (λ answer. (goal : goals.Goal) (table : Table) (program : PlainProgram)
        (ways : declared.PieceWays) (grammar : grammars.Grammar) (limit : ℕ) → ArePageWays table ways
        → IsPageGrammar program grammar → IsFound goal table ways grammar limit found
        → IsShortestAnswer goal table program limit answer) }
{
    Ok(match found {
        ShortAnswer::Whole => ShortestAnswer::Yes,
        ShortAnswer::Shortest(derivation) => ShortestAnswer::No(show_page(alloc, &derivation)?),
        ShortAnswer::Pairs { count, length } => ShortestAnswer::Pairs { count, length },
        ShortAnswer::Tags { count, length } => ShortestAnswer::Tags { count, length },
    })
}

/// What is found of the pages of a grammar by the reader of the definition's pages.
pub(crate) fn found_in(
    alloc: Global,
    grammar: &Grammar,
    pages: &PageWays<'_>,
    goal: Goal,
    sums: &PageSums,
    items: u64,
    pairs: u64,
) -> Result<ShortAnswer, ImageRefusal>
    requires ways { ArePageWays (table_of pages.now.dtd.now) pages.now.ways.now }
    requires sums { AreSumsOf goal (table_of pages.now.dtd.now) sums.now }
    ensures answer { IfOk result
        (IsFound goal (table_of pages.now.dtd.now) pages.now.ways.now grammar.now pairs) }
    ensures cause { IfErr result (IsCause grammar.now.productions.items
        (WayStep pages.now.ways.now.arena (starts_at pages.now.ways.now.starts))
        grammar.now.start first_state items) }
{
    is_page_machine(pages.dtd, pages.ways);
    let machine = Echoing {
        reader: WayReader { ways: pages.ways },
    };
    shortest_page(
        alloc, grammar, pages.dtd, goal, &machine, sums, items, pairs,
    )
}

/// A shortest page that the grammar of a program derives and that is not good.
fn decide_pages(
    alloc: Global,
    program: &Program,
    grammar: &Grammar,
    pages: &PageWays<'_>,
    goal: Goal,
    sums: &PageSums,
    pairs: u64,
) -> Result<ShortestAnswer, NoMemory>
    requires grammar { IsPageGrammar (program_of program.now) grammar.now }
    requires texts { TextsFit (program_of program.now) }
    requires ways { ArePageWays (table_of pages.now.dtd.now) pages.now.ways.now }
    requires sums { AreSumsOf goal (table_of pages.now.dtd.now) sums.now }
    ensures answer { IfOk result
        (IsShortestAnswer goal (table_of pages.now.dtd.now) (program_of program.now) pairs) }
    ensures sound { IfOk result
        (SaysOfRuns goal (table_of pages.now.dtd.now) (program_of program.now)) }
{
    let _ = program;
    good_loose_pages_make_good_runs();
    match found_in(alloc, grammar, pages, goal, sums, ITEM_LIMIT, pairs) {
        Ok(found) => show(alloc, found),
        Err(ImageRefusal::Large { items }) => Ok(ShortestAnswer::Items { count: items }),
        Err(ImageRefusal::Memory) => Err(NoMemory),
    }
}

/// The answer by the definition of an index.
fn decide_program(
    alloc: Global,
    program: &Program,
    indexed: &IndexedDtd,
    goal: Goal,
    sums: &PageSums,
    pairs: u64,
) -> Result<ShortestAnswer, CheckRefusal>
    requires { AreSumsOf goal (table_of indexed.now.dtd.now) sums.now }
    ensures answer { IfOk result
        (IsShortestAnswer goal (table_of indexed.now.dtd.now) (program_of program.now) pairs) }
    ensures sound { IfOk result
        (SaysOfRuns goal (table_of indexed.now.dtd.now) (program_of program.now)) }
    ensures refusal { IfErr result
        (IsCheckRefusal (table_of indexed.now.dtd.now) (program_of program.now)) }
{
    let ways = PieceWays::of_pages(alloc, indexed)?;
    let pages = PageWays {
        dtd: indexed.dtd,
        ways: &ways,
    };
    match loose_grammar(alloc, program) {
        Ok(made) => match decide_pages(alloc, program, &made.grammar, &pages, goal, sums, pairs) {
            Ok(answer) => Ok(answer),
            Err(_) => Err(CheckRefusal::Memory),
        },
        Err(GrammarRefusal::Items { count }) => Ok(ShortestAnswer::Items { count }),
        Err(GrammarRefusal::LongText) => Err(CheckRefusal::LongText),
        Err(GrammarRefusal::Memory) => Err(CheckRefusal::Memory),
    }
}

/// The answer without a page that is known: by a search among all pages.
pub(crate) fn search(
    alloc: Global,
    program: &Program,
    dtd: &Dtd,
    goal: Goal,
    pairs: u64,
) -> Result<ShortestAnswer, CheckRefusal>
    ensures answer { IfOk result
        (IsShortestAnswer goal (table_of dtd.now) (program_of program.now) pairs) }
    ensures sound { IfOk result (SaysOfRuns goal (table_of dtd.now) (program_of program.now)) }
    ensures refusal { IfErr result (IsCheckRefusal (table_of dtd.now) (program_of program.now)) }
{
    let indexed = IndexedDtd::new(alloc, dtd)?;
    match sums_of(alloc, dtd, goal) {
        Ok(sums) => decide_program(alloc, program, &indexed, goal, &sums, pairs),
        Err(ContentRefusal::Limit { count }) => Err(CheckRefusal::Limit { count }),
        Err(ContentRefusal::Memory) => Err(CheckRefusal::Memory),
    }
}
