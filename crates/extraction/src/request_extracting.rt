//! Extraction over any reading.

ghost use Rattle.std.specs.Prelude.{◌↔◌, ℕ, List, length, IfOk};
ghost use Rattle.cfg_grammar.specs.Tokens.{HaveNoToken};
ghost use Rattle.cfg_grammar.specs.declared.symbol.Symbol as symbols;
ghost use Rattle.given_texts.specs.Closed.{HasText};
ghost use Rattle.flow_code.specs.View.{plain_flow};
ghost use Rattle.loose_sets.specs.Loose.{LooseBy};
ghost use Rattle.extraction.specs.Texts.{SystemText};
ghost use Rattle.extraction.specs.Rules.{AreLooseRulesBy};
ghost use Rattle.extraction.specs.ListedMade.{IsMadeOver};
ghost use Rattle.extraction.specs.Bounds.{IsBoundedWith};

use crate::{FlowLister, Reading, extract_by};
use cfg_grammar::Grammar;
use flow_code::FlowProgram;
use given_texts::request_texts;
use op_system::OpSystem;
use std::alloc::Global;
use text_base::NoMemory;

/// The system of productions and operations whose start has exactly the loose pages of a program by
/// a reading of operations, of the request and of operations in cycles (`extract` reads texts as they
/// are), and whose operations are in cycles exactly where those of the loose sets are. What the
/// request may bring is given as a grammar, whose nonterminals and productions come beside the
/// bounds of `extract`. Linear in the rows and the grammar, beside the program.
pub fn extract_over<R: Reading>(
    alloc: Global,
    flow: &FlowProgram,
    reading: &R,
    request: &Grammar,
) -> Result<OpSystem, NoMemory>
    requires texts { (w : List ℕ) → R.request reading.now w
        ↔ HasText request.now.productions.items (symbols.Symbol.Nt request.now.start) w }
    requires no_token { HaveNoToken request.now.productions.items }
    ensures pages { IfOk result (λ s. (w : List ℕ)
        → SystemText (R.outputs reading.now) (R.circular reading.now) s.grammar.productions.items
        s.ops.items (symbols.Symbol.Nt s.start) w
        ↔ LooseBy (R.outputs reading.now) (R.request reading.now) (R.circular reading.now)
        (plain_flow flow.now) w) }
    ensures rules { IfOk result (AreLooseRulesBy (R.outputs reading.now) (R.request reading.now)
        (R.circular reading.now) (plain_flow flow.now)) }
    ensures made { IfOk result (IsMadeOver (R.request reading.now) request.now.count
        (length request.now.productions.items) (plain_flow flow.now)) }
    ensures bounded { IfOk result (IsBoundedWith request.now.count
        (length request.now.productions.items) (plain_flow flow.now)) }
{
    let lister = FlowLister::new(alloc, flow)?;
    let given = request_texts(alloc, request)?;
    let system = extract_by(alloc, flow, &lister, reading, given)?;
    Ok(system)
}
