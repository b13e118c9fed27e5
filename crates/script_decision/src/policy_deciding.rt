//! From a program to the answer.

ghost use Rattle.std.specs.Prelude.{IfOk, IfErr};
ghost use Rattle.cfg_grammar.specs.declared.grammar.Grammar as grammars;
ghost use Rattle.derivatives.specs.Standing.{IsExpr};
ghost use Rattle.page_policy.specs.Patterns.{Pattern as Plain};
ghost use Rattle.page_policy.specs.Forms.{form_of, IsForm};
ghost use Rattle.policy_matching.specs.Matching.{IsAnswer};
ghost use Rattle.program_rules.specs.View.{program_of};
ghost use Rattle.script_meaning.specs.Programs.{PlainProgram};
ghost use Rattle.flow_runs.specs.Texts.{TextsFit};
ghost use Rattle.loose_grammar.specs.declared.refusal.TheConstants as limits;
ghost use Rattle.loose_grammar.specs.Pages.{IsPageGrammar};
ghost use Rattle.script_decision.specs.PolicyAnswers.{IsPolicyAnswer, SaysOfRuns, IsMatchRefusal};

use crate::policy_answer::PolicyAnswer;
use crate::policy_laws::fitting_loose_pages_make_fitting_runs;
use crate::policy_refusal::MatchRefusal;
use crate::showing_pages::show_page;
use cfg_grammar::Grammar;
use loose_grammar::{GrammarRefusal, ITEM_LIMIT, loose_grammar};
use page_policy::{Pattern, forms_match_what_fits};
use policy_matching::{Match, match_all};
use program_rules::Program;
use std::alloc::Global;
use text_base::NoMemory;

/// What was found of the pages of a grammar, as it is shown.
fn show(alloc: Global, found: Match) -> Result<PolicyAnswer, NoMemory>
    ensures { IfOk result (λ answer. (p : Plain) (program : PlainProgram) (grammar : grammars.Grammar)
        → IsPageGrammar program grammar → IsAnswer (form_of p) grammar limits.ITEM_LIMIT found
        → IsPolicyAnswer p program answer) }
{
    forms_match_what_fits();
    Ok(match found {
        Match::All => PolicyAnswer::Yes,
        Match::Miss(derivation) => PolicyAnswer::No(show_page(alloc, &derivation)?),
        Match::Items { count } => PolicyAnswer::Items { count },
        Match::States { count } => PolicyAnswer::States { count },
    })
}

/// Whether each page that the grammar of a program derives fits the pattern.
fn decide_pages(
    alloc: Global,
    program: &Program,
    grammar: &Grammar,
    pattern: Pattern,
) -> Result<PolicyAnswer, NoMemory>
    requires form { IsExpr pattern.arena pattern.root }
    requires grammar { IsPageGrammar (program_of program.now) grammar.now }
    requires texts { TextsFit (program_of program.now) }
    ensures answer { IfOk result (λ answer. (p : Plain) → IsForm pattern.arena pattern.root p
        → IsPolicyAnswer p (program_of program.now) answer) }
    ensures sound { IfOk result (λ answer. (p : Plain) → IsForm pattern.arena pattern.root p
        → SaysOfRuns p (program_of program.now) answer) }
{
    let _ = program;
    fitting_loose_pages_make_fitting_runs();
    let mut pattern = pattern;
    let found = match_all(alloc, grammar, &mut pattern.arena, pattern.root, ITEM_LIMIT)?;
    show(alloc, found)
}

/// Whether each loose page of the program fits the pattern. A yes says that each run that ends
/// prints a page that fits, for every admitted request and every number of units. Linear in the
/// grammar of the loose pages for one pattern.
///
/// # Errors
///
/// `LongText` only where a text literal of the program has over 16,777,216 bytes. `Memory` may come
/// at any time.
pub fn decide_policy(
    alloc: Global,
    program: &Program,
    pattern: Pattern,
) -> Result<PolicyAnswer, MatchRefusal>
    requires { IsExpr pattern.arena pattern.root }
    ensures answer { IfOk result (λ answer. (p : Plain) → IsForm pattern.arena pattern.root p
        → IsPolicyAnswer p (program_of program.now) answer) }
    ensures sound { IfOk result (λ answer. (p : Plain) → IsForm pattern.arena pattern.root p
        → SaysOfRuns p (program_of program.now) answer) }
    ensures refusal { IfErr result (IsMatchRefusal (program_of program.now)) }
{
    match loose_grammar(alloc, program) {
        Ok(made) => Ok(decide_pages(alloc, program, &made.grammar, pattern)?),
        Err(GrammarRefusal::Items { count }) => Ok(PolicyAnswer::Items { count }),
        Err(GrammarRefusal::LongText) => Err(MatchRefusal::LongText),
        Err(GrammarRefusal::Memory) => Err(MatchRefusal::Memory),
    }
}
