//! Extraction.

ghost use Rattle.std.specs.Prelude.{◌≡◌, ◌↔◌, ℕ, List, [], length, IfOk};
ghost use Rattle.cfg_grammar.specs.declared.symbol.Symbol as symbols;
ghost use Rattle.flow_code.specs.View.{plain_flow};
ghost use Rattle.loose_sets.specs.Loose.{LooseBy};
ghost use Rattle.given_texts.specs.Closed.{IsClosed};
ghost use Rattle.given_texts.specs.Given.{closed_of};
ghost use Rattle.system_writing.specs.Steps.{IsBegun};
ghost use Rattle.extraction.specs.Texts.{SystemText};
ghost use Rattle.extraction.specs.Ends.{AreEnds, IsExactLister};
ghost use Rattle.extraction.specs.Made.{IsMadeBy};
ghost use Rattle.extraction.specs.Rules.{AreLooseRulesBy};

use crate::listing::{begin_with, list_all};
use crate::work::Work;
use crate::{Lister, Reading};
use flow_code::FlowProgram;
use given_texts::GivenTexts;
use indexmap::IndexSet;
use loose_sets::{Leaving, SetName};
use op_system::OpSystem;
use std::alloc::Global;
use system_writing::Draft;
use text_base::NoMemory;

/// The sets of what is printed from the entry of the first function on, until it returns and until
/// the run ends elsewhere; none where there is no function.
fn ends(alloc: Global, flow: &FlowProgram) -> Result<Vec<SetName>, NoMemory>
    ensures { IfOk result (λ names. AreEnds (plain_flow flow.now) names.items) }
{
    let mut names = Vec::new(alloc);
    let Some(main) = flow.functions.as_slice().first() else {
        return Ok(names);
    };
    names.push(SetName::Out(main.entry.0, Leaving::Return))?;
    names.push(SetName::Out(main.entry.0, Leaving::Exit))?;
    Ok(names)
}

/// Nothing but what is given.
fn begin(alloc: Global, given: GivenTexts) -> Result<Work, NoMemory>
    ensures names { IfOk result (λ work. work.names.keys ≡ []) }
    ensures numbers { IfOk result (λ work. work.numbers.items ≡ []) }
    ensures draft { IfOk result
        (λ work. IsBegun (closed_of given) given.grammar.count work.draft) }
{
    let draft = Draft::new(alloc, given)?;
    Ok(Work {
        names: IndexSet::new(alloc),
        numbers: Vec::new(alloc),
        draft,
    })
}

/// The system of productions and operations whose start has exactly the loose pages of a program by
/// a reading, over a lister of its sets and a grammar of what the request may bring, and whose
/// operations are in cycles exactly where those of the loose sets are. Linear in the rows and the
/// grammar, beside what the lister takes for them.
pub fn extract_by<L: Lister, R: Reading>(
    alloc: Global,
    flow: &FlowProgram,
    lister: &L,
    reading: &R,
    given: GivenTexts,
) -> Result<OpSystem, NoMemory>
    requires lists { IsExactLister (plain_flow flow.now) (L.asks lister.now) (L.lists lister.now) }
    requires closed { IsClosed (closed_of given) (R.request reading.now) }
    ensures pages { IfOk result (λ s. (w : List ℕ)
        → SystemText (R.outputs reading.now) (R.circular reading.now) s.grammar.productions.items
        s.ops.items (symbols.Symbol.Nt s.start) w
        ↔ LooseBy (R.outputs reading.now) (R.request reading.now) (R.circular reading.now)
        (plain_flow flow.now) w) }
    ensures rules { IfOk result (AreLooseRulesBy (R.outputs reading.now) (R.request reading.now)
        (R.circular reading.now) (plain_flow flow.now)) }
    ensures made { IfOk result (IsMadeBy (R.request reading.now) given.grammar.count
        (length given.grammar.productions.items) (plain_flow flow.now) (L.asks lister.now)
        (L.lists lister.now)) }
{
    let starts = ends(alloc, flow)?;
    let mut work = begin(alloc, given)?;
    begin_with(&mut work, &starts)?;
    list_all(alloc, lister, &mut work)?;
    let system = work.draft.finish(alloc)?;
    Ok(system)
}
