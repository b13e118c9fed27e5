//! The decision by any reader that has the tokens of pages and tells runs of bytes.

ghost use Rattle.std.specs.Prelude.{IfOk, IfErr};
ghost use Rattle.dtd_model.specs.TableOf.{table_of};
ghost use Rattle.program_rules.specs.View.{program_of};
ghost use Rattle.flow_runs.specs.Texts.{TextsFit};
ghost use Rattle.loose_grammar.specs.Pages.{IsPageGrammar};
ghost use Rattle.page_decision.specs.PageSums.{AreSumsOf};
ghost use Rattle.page_decision.specs.Readers.{ReadsPages};
ghost use Rattle.echoing_machine.specs.Echoes.{EchoEnd, EchoStep};
ghost use Rattle.script_decision.specs.Answers.{IsAnswerBy, SaysOfRuns};
ghost use Rattle.script_decision.specs.Decision.{IsCheckRefusal};

use crate::laws::good_loose_pages_make_good_runs;
use crate::refusal::CheckRefusal;
use crate::{Answer, answer_by};
use cfg_grammar::Grammar;
use content_automata::ContentRefusal;
use dtd_model::Dtd;
use echoing_machine::{Echoing, RunReader};
use loose_grammar::{GrammarRefusal, loose_grammar};
use page_decision::echo_laws::echo_is_page_machine;
use page_decision::{Goal, PageSums, sums_of};
use program_rules::Program;
use std::alloc::Global;
use text_base::NoMemory;

// The answer for a program, from the grammar of its loose pages and the summary of the goal.
fn answer_grammar<R: RunReader + Drop>(
    alloc: Global,
    program: &Program,
    grammar: &Grammar,
    takes_outside: bool,
    dtd: &Dtd,
    goal: Goal,
    reader: R,
    sums: &PageSums,
    pairs: u64,
) -> Result<Answer, NoMemory>
    requires texts { TextsFit (program_of program.now) }
    requires grammar { IsPageGrammar (program_of program.now) grammar.now }
    requires reads { ReadsPages (table_of dtd.now) (R.next reader) (R.puts reader) (R.lasts reader)
        (R.first reader) }
    requires sums { AreSumsOf goal (table_of dtd.now) sums.now }
    ensures answer { IfOk result
        (IsAnswerBy (R.first reader) (EchoStep (R.next reader) (R.puts reader) (R.lasts reader))
        (EchoEnd (R.next reader) (R.puts reader) (R.lasts reader)) goal (table_of dtd.now)
        (program_of program.now) pairs) }
    ensures sound { IfOk result (SaysOfRuns goal (table_of dtd.now) (program_of program.now)) }
{
    good_loose_pages_make_good_runs();
    echo_is_page_machine(dtd, &reader);
    let machine = Echoing { reader };
    answer_by(
        alloc,
        program,
        grammar,
        takes_outside,
        dtd,
        goal,
        &machine,
        sums,
        pairs,
    )
}

// The answer for a program, by the summary of the goal.
fn decide_program<R: RunReader + Drop>(
    alloc: Global,
    program: &Program,
    dtd: &Dtd,
    goal: Goal,
    reader: R,
    sums: &PageSums,
    pairs: u64,
) -> Result<Answer, CheckRefusal>
    requires reads { ReadsPages (table_of dtd.now) (R.next reader) (R.puts reader) (R.lasts reader)
        (R.first reader) }
    requires sums { AreSumsOf goal (table_of dtd.now) sums.now }
    ensures answer { IfOk result
        (IsAnswerBy (R.first reader) (EchoStep (R.next reader) (R.puts reader) (R.lasts reader))
        (EchoEnd (R.next reader) (R.puts reader) (R.lasts reader)) goal (table_of dtd.now)
        (program_of program.now) pairs) }
    ensures sound { IfOk result (SaysOfRuns goal (table_of dtd.now) (program_of program.now)) }
    ensures refusal { IfErr result (IsCheckRefusal (table_of dtd.now) (program_of program.now)) }
{
    match loose_grammar(alloc, program) {
        Ok(made) => match answer_grammar(
            alloc,
            program,
            &made.grammar,
            made.takes_outside,
            dtd,
            goal,
            reader,
            sums,
            pairs,
        ) {
            Ok(answer) => Ok(answer),
            Err(_) => Err(CheckRefusal::Memory),
        },
        Err(GrammarRefusal::Items { count }) => Ok(Answer::Items { count }),
        Err(GrammarRefusal::LongText) => Err(CheckRefusal::LongText),
        Err(GrammarRefusal::Memory) => Err(CheckRefusal::Memory),
    }
}

/// Whether each loose page of the program is good by the goal and the definition, by a reader that
/// has the tokens of each page. A yes says that each run that ends prints a good page.
///
/// # Errors
///
/// `LongText` only where a text literal of the program has over 16,777,216 bytes; `Limit` only
/// where the content models of the definition pass a limit. `Memory` may come at any
/// time.
pub fn check_by<R: RunReader + Drop>(
    alloc: Global,
    program: &Program,
    dtd: &Dtd,
    goal: Goal,
    reader: R,
    pairs: u64,
) -> Result<Answer, CheckRefusal>
    requires { ReadsPages (table_of dtd.now) (R.next reader) (R.puts reader) (R.lasts reader)
        (R.first reader) }
    ensures answer { IfOk result
        (IsAnswerBy (R.first reader) (EchoStep (R.next reader) (R.puts reader) (R.lasts reader))
        (EchoEnd (R.next reader) (R.puts reader) (R.lasts reader)) goal (table_of dtd.now)
        (program_of program.now) pairs) }
    ensures sound { IfOk result (SaysOfRuns goal (table_of dtd.now) (program_of program.now)) }
    ensures refusal { IfErr result (IsCheckRefusal (table_of dtd.now) (program_of program.now)) }
{
    match sums_of(alloc, dtd, goal) {
        Ok(sums) => decide_program(alloc, program, dtd, goal, reader, &sums, pairs),
        Err(ContentRefusal::Limit { count }) => Err(CheckRefusal::Limit { count }),
        Err(ContentRefusal::Memory) => Err(CheckRefusal::Memory),
    }
}
