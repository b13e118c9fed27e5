//! Pages that are shorter than one that is known.

ghost use Rattle.std.specs.Prelude.{ℕ, IfOk, IfErr};
ghost use Rattle.cfg_grammar.specs.declared.grammar.Grammar as grammars;
ghost use Rattle.dtd_model.specs.Table.{Table};
ghost use Rattle.dtd_model.specs.TableOf.{table_of};
ghost use Rattle.loose_grammar.specs.Pages.{IsPageGrammar};
ghost use Rattle.page_decision.specs.PageSums.{AreSumsOf};
ghost use Rattle.page_decision.specs.declared.goal.Goal as goals;
ghost use Rattle.program_rules.specs.View.{program_of};
ghost use Rattle.script_decision.specs.Decision.{IsCheckRefusal};
ghost use Rattle.script_meaning.specs.Programs.{PlainProgram};
ghost use Rattle.script_decision.specs.ShortestBelow.{IsBelow, IsCutOf, IsFound};
ghost use Rattle.way_reader.specs.PageWays.{ArePageWays};
ghost use Rattle.way_reader.specs.declared.reader.PieceWays as declared;

use crate::reader::PageWays;
use crate::refusal::CheckRefusal;
use crate::shortest_below::Below;
use crate::shortest_deciding::found_in;
use crate::showing_pages::show_page;
use cfg_grammar::Grammar;
use content_automata::ContentRefusal;
use cut_grammars::cut;
use dtd_index::IndexedDtd;
use dtd_model::Dtd;
use grammar_image::ImageRefusal;
use loose_grammar::{GrammarRefusal, loose_grammar};
use page_decision::{Goal, PageSums, sums_of};
use program_rules::Program;
use short_page::ShortAnswer;
use std::alloc::Global;
use text_base::NoMemory;
use way_reader::PieceWays;

/// The most items of an image with which shorter pages are looked for.
const SHORT_ITEMS: u64 = 1_000_000;

/// What was found of pages of at most so many bytes, as it is shown.
fn show_below(alloc: Global, found: ShortAnswer) -> Result<Below, NoMemory>
    ensures { IfOk result (λ below. (goal : goals.Goal) (table : Table) (program : PlainProgram)
        (ways : declared.PieceWays) (grammar cut : grammars.Grammar) (most limit : ℕ)
        → ArePageWays table ways → IsPageGrammar program grammar → IsCutOf grammar most cut
        → IsFound goal table ways cut limit found
        → IsBelow goal table program most below) }
{
    Ok(match found {
        ShortAnswer::Whole => Below::Good,
        ShortAnswer::Shortest(derivation) => Below::Bad(show_page(alloc, &derivation)?),
        ShortAnswer::Pairs { .. } => Below::Open,
        ShortAnswer::Tags { .. } => Below::Open,
    })
}

/// What is found of the pages that a grammar derives which was cut to so many bytes.
fn cut_below(
    alloc: Global,
    cut: &Grammar,
    pages: &PageWays<'_>,
    goal: Goal,
    sums: &PageSums,
    pairs: u64,
) -> Result<Below, NoMemory>
    requires ways { ArePageWays (table_of pages.now.dtd.now) pages.now.ways.now }
    requires sums { AreSumsOf goal (table_of pages.now.dtd.now) sums.now }
    ensures { IfOk result (λ below. (program : PlainProgram) (grammar : grammars.Grammar) (most : ℕ)
        → IsPageGrammar program grammar → IsCutOf grammar most cut.now
        → IsBelow goal (table_of pages.now.dtd.now) program most below) }
{
    match found_in(alloc, cut, pages, goal, sums, SHORT_ITEMS, pairs) {
        Ok(found) => show_below(alloc, found),
        Err(ImageRefusal::Large { .. }) => Ok(Below::Open),
        Err(ImageRefusal::Memory) => Err(NoMemory),
    }
}

/// What is found of the pages of at most so many bytes that the grammar of a program derives.
fn grammar_below(
    alloc: Global,
    grammar: &Grammar,
    pages: &PageWays<'_>,
    goal: Goal,
    sums: &PageSums,
    pairs: u64,
    most: u64,
) -> Result<Below, NoMemory>
    requires ways { ArePageWays (table_of pages.now.dtd.now) pages.now.ways.now }
    requires sums { AreSumsOf goal (table_of pages.now.dtd.now) sums.now }
    ensures { IfOk result (λ below. (program : PlainProgram) → IsPageGrammar program grammar.now
        → IsBelow goal (table_of pages.now.dtd.now) program most below) }
{
    match cut(alloc, grammar, most, SHORT_ITEMS) {
        Ok(cut) => cut_below(alloc, &cut, pages, goal, sums, pairs),
        Err(ImageRefusal::Large { .. }) => Ok(Below::Open),
        Err(ImageRefusal::Memory) => Err(NoMemory),
    }
}

/// The same, tried first with fewer bytes: where a page of these is not good, it is found in less
/// time, since texts have less room.
fn steps_below(
    alloc: Global,
    grammar: &Grammar,
    pages: &PageWays<'_>,
    goal: Goal,
    sums: &PageSums,
    pairs: u64,
    most: u64,
) -> Result<Below, NoMemory>
    requires ways { ArePageWays (table_of pages.now.dtd.now) pages.now.ways.now }
    requires sums { AreSumsOf goal (table_of pages.now.dtd.now) sums.now }
    ensures { IfOk result (λ below. (program : PlainProgram) → IsPageGrammar program grammar.now
        → IsBelow goal (table_of pages.now.dtd.now) program most below) }
{
    match grammar_below(alloc, grammar, pages, goal, sums, pairs, most - most / 32) {
        Ok(Below::Bad(page)) => Ok(Below::Bad(page)),
        Ok(_) => grammar_below(alloc, grammar, pages, goal, sums, pairs, most),
        Err(NoMemory) => Err(NoMemory),
    }
}

/// What is found of the loose pages of at most so many bytes, by the definition of an index.
fn program_below(
    alloc: Global,
    program: &Program,
    indexed: &IndexedDtd,
    goal: Goal,
    sums: &PageSums,
    pairs: u64,
    most: u64,
) -> Result<Below, CheckRefusal>
    requires { AreSumsOf goal (table_of indexed.now.dtd.now) sums.now }
    ensures below { IfOk result
        (IsBelow goal (table_of indexed.now.dtd.now) (program_of program.now) most) }
    ensures refusal { IfErr result
        (IsCheckRefusal (table_of indexed.now.dtd.now) (program_of program.now)) }
{
    let ways = PieceWays::of_pages(alloc, indexed)?;
    let pages = PageWays {
        dtd: indexed.dtd,
        ways: &ways,
    };
    match loose_grammar(alloc, program) {
        Ok(made) => match steps_below(alloc, &made.grammar, &pages, goal, sums, pairs, most) {
            Ok(below) => Ok(below),
            Err(_) => Err(CheckRefusal::Memory),
        },
        Err(GrammarRefusal::Items { .. }) => Ok(Below::Open),
        Err(GrammarRefusal::LongText) => Err(CheckRefusal::LongText),
        Err(GrammarRefusal::Memory) => Err(CheckRefusal::Memory),
    }
}

/// What is found of the loose pages of at most so many bytes.
///
/// # Errors
///
/// As `check_shortest`.
pub(crate) fn pages_below(
    alloc: Global,
    program: &Program,
    dtd: &Dtd,
    goal: Goal,
    pairs: u64,
    most: u64,
) -> Result<Below, CheckRefusal>
    ensures below { IfOk result (IsBelow goal (table_of dtd.now) (program_of program.now) most) }
    ensures refusal { IfErr result (IsCheckRefusal (table_of dtd.now) (program_of program.now)) }
{
    let indexed = IndexedDtd::new(alloc, dtd)?;
    match sums_of(alloc, dtd, goal) {
        Ok(sums) => program_below(alloc, program, &indexed, goal, &sums, pairs, most),
        Err(ContentRefusal::Limit { count }) => Err(CheckRefusal::Limit { count }),
        Err(ContentRefusal::Memory) => Err(CheckRefusal::Memory),
    }
}
