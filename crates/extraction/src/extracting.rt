//! Extraction.

ghost use Rattle.std.specs.Prelude.{◌↔◌, ℕ, List, IfOk};
ghost use Rattle.cfg_grammar.specs.declared.symbol.Symbol as symbols;
ghost use Rattle.flow_code.specs.View.{plain_flow};
ghost use Rattle.loose_sets.specs.Loose.{Loose};
ghost use Rattle.op_bytes.specs.Texts.{TextOf};
ghost use Rattle.extraction.specs.Rules.{AreLooseRules};
ghost use Rattle.extraction.specs.ListedMade.{IsMade};
ghost use Rattle.extraction.specs.Bounds.{IsBounded};

use crate::{FlowLister, Plain, extract_by};
use flow_code::FlowProgram;
use given_texts::given_texts;
use op_system::OpSystem;
use std::alloc::Global;
use text_base::NoMemory;

/// The system of productions and operations whose start has exactly the loose pages of a program
/// (Minamide, WWW 2005), and whose operations are in cycles exactly where those of the loose sets
/// are. Sets are made only where they are used: with one key more than those that are told apart, at
/// most 64 times the size of the program and its joins nonterminals for each, and 128 times with
/// what the joins join productions and operations. Linear in their rows, beside the program.
pub fn extract(alloc: Global, flow: &FlowProgram) -> Result<OpSystem, NoMemory>
    ensures pages { IfOk result (λ s. (w : List ℕ) → TextOf s (symbols.Symbol.Nt s.start) w
        ↔ Loose (plain_flow flow.now) w) }
    ensures rules { IfOk result (AreLooseRules (plain_flow flow.now)) }
    ensures made { IfOk result (IsMade (plain_flow flow.now)) }
    ensures bounded { IfOk result (IsBounded (plain_flow flow.now)) }
{
    let lister = FlowLister::new(alloc, flow)?;
    let given = given_texts(alloc)?;
    let system = extract_by(alloc, flow, &lister, &Plain, given)?;
    Ok(system)
}
