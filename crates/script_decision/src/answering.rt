//! From a grammar to an answer.

ghost use Rattle.std.specs.Prelude.{◌≡◌, false, IfOk, IfErr};
ghost use Rattle.dtd_model.specs.TableOf.{table_of};
ghost use Rattle.program_rules.specs.View.{program_of};
ghost use Rattle.loose_grammar.specs.Pages.{IsLoosePage, IsPageGrammar};
ghost use Rattle.page_decision.specs.Machines.{IsPageMachine};
ghost use Rattle.page_decision.specs.PageSums.{AreSumsOf};
ghost use Rattle.page_decision.specs.PageVerdicts.{IsPageVerdict};
ghost use Rattle.script_decision.specs.Answers.{IsAnswerBy, IsDerivationBy, IsPageImage};
ghost use Rattle.script_decision.specs.Searches.{IsSearched};
ghost use Rattle.script_decision.specs.Steps.{IsItemCause, is_settled};

use crate::answer::{Answer, verdict_answer};
use crate::pages::decide_grammar;
use cfg_grammar::Grammar;
use dtd_model::Dtd;
use fst_core::Machine;
use grammar_image::ImageRefusal;
use page_decision::{Goal, PageSums};
use program_rules::Program;
use std::alloc::Global;
use summary_decision::Verdict;
use text_base::NoMemory;

/// Whether each loose page is good. Where a limit is answered, no page is broken by the definition, or
/// the search for one passed its own limit.
fn verdict_by<M: Machine>(
    alloc: Global,
    program: &Program,
    grammar: &Grammar,
    takes_outside: bool,
    dtd: &Dtd,
    goal: Goal,
    machine: &M,
    sums: &PageSums,
    pairs: u64,
) -> Result<Verdict, ImageRefusal>
    requires grammar { IsPageGrammar (program_of program.now) grammar.now }
    requires machine { IsPageMachine (table_of dtd.now) (M.first machine.now) (M.steps machine.now)
        (M.ends machine.now) }
    requires sums { AreSumsOf goal (table_of dtd.now) sums.now }
    ensures verdict { IfOk result
        (IsPageVerdict (table_of dtd.now) (IsLoosePage (program_of program.now))
        (IsPageImage (M.first machine.now) (M.steps machine.now) (M.ends machine.now)
        (program_of program.now)) (IsDerivationBy (program_of program.now)) goal pairs) }
    ensures cause { IfErr result
        (IsItemCause (M.first machine.now) (M.steps machine.now) (table_of dtd.now)
        (program_of program.now)) }
    ensures searched { is_settled result ≡ false
        → IsSearched (table_of dtd.now) (program_of program.now) }
{
    let _ = program;
    decide_grammar(
        alloc,
        grammar,
        takes_outside,
        dtd,
        goal,
        machine,
        sums,
        pairs,
    )
}

/// Whether each loose page of the program is good by the goal and the definition, with at most
/// `pairs` different sums of sentences a nonterminal. Where that passes a limit, a page that is broken
/// by the definition is looked for: if the search ends within its own limit, there is none where the
/// limit is answered. Where texts from outside are taken, a page that is broken whatever the
/// definition is looked for first; no clause depends on it.
///
/// # Errors
///
/// Want of memory.
pub fn answer_by<M: Machine>(
    alloc: Global,
    program: &Program,
    grammar: &Grammar,
    takes_outside: bool,
    dtd: &Dtd,
    goal: Goal,
    machine: &M,
    sums: &PageSums,
    pairs: u64,
) -> Result<Answer, NoMemory>
    requires grammar { IsPageGrammar (program_of program.now) grammar.now }
    requires machine { IsPageMachine (table_of dtd.now) (M.first machine.now) (M.steps machine.now)
        (M.ends machine.now) }
    requires sums { AreSumsOf goal (table_of dtd.now) sums.now }
    ensures { IfOk result
        (IsAnswerBy (M.first machine.now) (M.steps machine.now) (M.ends machine.now) goal
        (table_of dtd.now) (program_of program.now) pairs) }
{
    match verdict_by(
        alloc,
        program,
        grammar,
        takes_outside,
        dtd,
        goal,
        machine,
        sums,
        pairs,
    ) {
        Ok(verdict) => Ok(verdict_answer(verdict)),
        Err(ImageRefusal::Large { items }) => Ok(Answer::Items { count: items }),
        Err(ImageRefusal::Memory) => Err(NoMemory),
    }
}
