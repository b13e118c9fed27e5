//! Drafts of a grammar.

ghost use Rattle.std.specs.Prelude.{IsTrue, length, IfOk, OnOk};
ghost use Rattle.cfg_grammar.specs.Below.{AreBelow, production_below};
ghost use Rattle.resolving.specs.Draft.{IsIndexed, IsOfSystem, Puts, PutsAll, Widens};

use cfg_grammar::Production;
use numbered_sets::Chains;
use op_system::OpSystem;
use std::alloc::Global;
use text_base::NoMemory;

/// Productions, and for each nonterminal the places of its productions among them, as chains. The
/// nonterminals are the numbers that the chains are of.
#[derive(Drop)]
pub struct Draft {
    pub productions: Vec<Production>,
    pub chains: Chains,
}

/// Puts a production behind the others.
pub fn put(draft: &mut Draft, production: Production) -> Result<(), NoMemory>
    requires indexed { IsIndexed draft.old }
    requires below { IsTrue (production_below (length draft.old.chains.last.items) production) }
    ensures { OnOk result (Puts draft.old draft.new production) }
{
    draft.productions.push(production)?;
    draft.chains.push(production.left.0)?;
    Ok(())
}

/// Adds so many nonterminals without productions.
pub fn widen(draft: &mut Draft, count: u64) -> Result<(), NoMemory>
    requires { IsIndexed draft.old }
    ensures { OnOk result (Widens draft.old draft.new count) }
{
    draft.chains.widen(count)?;
    Ok(())
}

/// Puts productions behind the others, in turn.
fn put_all(draft: &mut Draft, productions: &[Production]) -> Result<(), NoMemory>
    requires indexed { IsIndexed draft.old }
    requires below { AreBelow (length draft.old.chains.last.items) productions.now }
    ensures { OnOk result (PutsAll draft.old draft.new productions.now) }
{
    for production in productions {
        put(draft, *production)?;
    }
    Ok(())
}

/// The draft of a system before any operation is added.
pub fn begin(alloc: Global, s: &OpSystem) -> Result<Draft, NoMemory>
    ensures { IfOk result (IsOfSystem s.now) }
{
    let mut draft = Draft {
        productions: Vec::new(alloc),
        chains: Chains::new(alloc),
    };
    widen(&mut draft, s.grammar.count)?;
    put_all(&mut draft, s.grammar.productions.as_slice())?;
    Ok(draft)
}
