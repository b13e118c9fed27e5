//! A grammar without its useless nonterminals.

ghost use Rattle.std.specs.Prelude.{◌≡◌, ◌++◌, IfOk, OnOk, option_to_list};
ghost use Rattle.useful_nonterminals.specs.Naming as spec;
ghost use Rattle.useful_nonterminals.specs.Trimmed.{IsTrimmed};

use crate::names::{name_of, named_production, names_of};
use crate::useful_nonterminals;
use cfg_grammar::{Grammar, Production};
use std::alloc::Global;
use text_base::{NoMemory, Nt};

/// Puts a production behind the others, if there is one.
fn add(productions: &mut Vec<Production>, more: Option<Production>) -> Result<(), NoMemory>
    ensures { OnOk result (productions.new.items ≡ productions.old.items ++ option_to_list more) }
{
    if let Some(production) = more {
        productions.push(production)?;
    }
    Ok(())
}

/// The productions whose nonterminals all have names, under these.
fn named_productions(
    alloc: Global,
    names: &[Option<u64>],
    productions: &[Production],
) -> Result<Vec<Production>, NoMemory>
    ensures { IfOk result (λ ps. ps.items ≡ spec.named_productions names.now productions.now) }
{
    let mut named = Vec::new(alloc);
    for production in productions {
        add(&mut named, named_production(names, *production))?;
    }
    Ok(named)
}

/// The grammar without the nonterminals that stand in no derivation from the start, but for the
/// start itself. The others are numbered anew, in their order. The time is linear in the grammar.
pub fn trim(alloc: Global, grammar: &Grammar) -> Result<Grammar, NoMemory>
    ensures { IfOk result
        (λ g. IsTrimmed grammar.now.productions.items grammar.now.start grammar.now.count
        g.productions.items g.start g.count) }
{
    let useful = useful_nonterminals(alloc, grammar)?;
    let names = names_of(alloc, useful.as_slice(), grammar.start.0)?;
    let productions = named_productions(
        alloc,
        names.names.as_slice(),
        grammar.productions.as_slice(),
    )?;
    let Some(start) = name_of(names.names.as_slice(), grammar.start) else {
        unreachable!()
    };
    Ok(Grammar {
        start: Nt(start),
        count: names.count,
        productions,
    })
}
