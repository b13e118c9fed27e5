//! From a program to the grammar of its loose pages.

ghost use Rattle.std.specs.Prelude.{◌≡◌, ◌↔◌, List, IfOk, IfErr};
ghost use Rattle.text_base.specs.declared.letter.Letter.{Letter};
ghost use Rattle.cfg_grammar.specs.Derives.{Derives};
ghost use Rattle.cfg_grammar.specs.declared.symbol.Symbol as symbols;
ghost use Rattle.flow_code.specs.Flat.{flat};
ghost use Rattle.flow_code.specs.View.{plain_flow};
ghost use Rattle.program_rules.specs.View.{program_of};
ghost use Rattle.flow_runs.specs.Texts.{TextsFit};
ghost use Rattle.equal_sets.specs.Joined.{IsJoined};
ghost use Rattle.resolving.specs.Resolved.{HasLetters};
ghost use Rattle.resolving.specs.Drafted.{IsResolved};
ghost use Rattle.resolving.specs.Causes.{IsCause};
ghost use Rattle.loose_grammar.specs.Pages.{DerivePages, IsPageGrammar, IsProgramSystem};
ghost use Rattle.loose_grammar.specs.Refusals.{IsGrammarRefusal};

use crate::outside::takes_outside;
use crate::refusal::{GrammarRefusal, ITEM_LIMIT, refusal_of};
use cfg_grammar::Grammar;
use equal_sets::join_equal;
use expression_lowering::LoweringError;
use extraction::extract;
use flow_code::FlowProgram;
use grammar_image::ImageRefusal;
use op_system::OpSystem;
use program_lowering::lower;
use program_rules::Program;
use resolving::resolve;
use std::alloc::Global;
use text_base::NoMemory;
use useful_nonterminals::trim;

/// The grammar of the loose pages of a program.
#[derive(Debug, Drop)]
pub struct PageGrammar {
    pub grammar: Grammar,
    /// Whether its system may take texts from outside: by a range of several bytes, as a number that
    /// is not known has them too, or by an operation that gives any text over its bytes. No clause
    /// speaks of it.
    pub takes_outside: bool,
}

// The system of a program, from its points, which are let go then.
fn system_of(alloc: Global, program: &Program, flow: FlowProgram) -> Result<OpSystem, NoMemory>
    requires { plain_flow flow ≡ flat (program_of program.now) }
    ensures { IfOk result (IsProgramSystem (program_of program.now)) }
{
    let _ = program;
    extract(alloc, &flow)
}

// The system in which equal sets are one. The other is let go then.
fn joined_of(alloc: Global, system: OpSystem) -> Result<OpSystem, NoMemory>
    ensures { IfOk result (IsJoined system) }
{
    join_equal(alloc, &system)
}

// One grammar of the texts of a system. The system is let go then: the grammar has all its
// productions again.
fn resolved_of(alloc: Global, system: OpSystem) -> Result<Grammar, ImageRefusal>
    ensures exact { IfOk result
        (λ g. (w : List Letter) → Derives g.productions.items (symbols.Symbol.Nt g.start) w
        ↔ HasLetters system (symbols.Symbol.Nt system.start) w) }
    ensures resolved { IfOk result (IsResolved system) }
    ensures cause { IfErr result (IsCause system ITEM_LIMIT) }
{
    resolve(alloc, &system, ITEM_LIMIT)
}

// The grammar of a system.
fn grammar_of(
    alloc: Global,
    program: &Program,
    system: OpSystem,
) -> Result<PageGrammar, GrammarRefusal>
    requires { IsProgramSystem (program_of program.now) system }
    ensures grammar { IfOk result (λ made. IsPageGrammar (program_of program.now) made.grammar) }
    ensures refusal { IfErr result (IsGrammarRefusal (program_of program.now)) }
{
    let _ = program;
    let takes_outside = takes_outside(&system);
    let joined = joined_of(alloc, system)?;
    match resolved_of(alloc, joined) {
        Ok(grammar) => Ok(PageGrammar {
            grammar: trim(alloc, &grammar)?,
            takes_outside,
        }),
        Err(refusal) => Err(refusal_of(refusal)),
    }
}

/// The grammar of the loose pages of a program, without what stands in no derivation, and whether
/// its system takes texts from outside.
///
/// # Errors
///
/// `LongText` only where a text literal of the program has over 16,777,216 bytes; `Items` only
/// where the image of a string operation has so many items, over `ITEM_LIMIT`. `Memory` may come at
/// any time.
pub fn loose_grammar(alloc: Global, program: &Program) -> Result<PageGrammar, GrammarRefusal>
    ensures pages { IfOk result
        (λ made. DerivePages (program_of program.now) made.grammar.productions.items
        made.grammar.start) }
    ensures grammar { IfOk result (λ made. IsPageGrammar (program_of program.now) made.grammar) }
    ensures texts { IfOk result (λ _. TextsFit (program_of program.now)) }
    ensures refusal { IfErr result (IsGrammarRefusal (program_of program.now)) }
{
    match lower(alloc, program) {
        Ok(flow) => {
            let system = system_of(alloc, program, flow)?;
            grammar_of(alloc, program, system)
        }
        Err(LoweringError::LongText) => Err(GrammarRefusal::LongText),
        Err(LoweringError::Memory) => Err(GrammarRefusal::Memory),
    }
}
