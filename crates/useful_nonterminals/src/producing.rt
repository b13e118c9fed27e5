//! The nonterminals that derive something.

ghost use Rattle.std.specs.Prelude.{◌≡◌, ◌↔◌, ◌++◌, length, IfOk, OnOk};
ghost use Rattle.text_base.specs.declared.numbers.Nt as nt;
ghost use Rattle.useful_nonterminals.specs.Follows.{IsMarked};
ghost use Rattle.useful_nonterminals.specs.Useful.{IsProductive};
ghost use Rattle.useful_nonterminals.specs.Rules.{number_in, both, numbers_in, fact_for, rule_for, facts_of, rules_of};

use crate::drawing::closure;
use crate::rule::Rule;
use cfg_grammar::{Grammar, Production, Right, Symbol};
use std::alloc::Global;
use text_base::NoMemory;

/// The number of a symbol that is a nonterminal.
fn number_of(symbol: Symbol) -> Option<u64>
    ensures { result ≡ number_in symbol }
{
    match symbol {
        Symbol::Range(_) => None,
        Symbol::Token(_) => None,
        Symbol::Nt(a) => Some(a.0),
    }
}

/// Both numbers, one of them twice where there is only one.
fn pair_of(a: Option<u64>, b: Option<u64>) -> Option<(u64, u64)>
    ensures { result ≡ both a b }
{
    match (a, b) {
        (None, None) => None,
        (None, Some(b)) => Some((b, b)),
        (Some(a), None) => Some((a, a)),
        (Some(a), Some(b)) => Some((a, b)),
    }
}

/// The nonterminals on the right of a production, one of them twice where there is only one.
pub(crate) fn premises(right: Right) -> Option<(u64, u64)>
    ensures { result ≡ numbers_in right }
{
    match right {
        Right::Empty => None,
        Right::One(a) => pair_of(number_of(a), None),
        Right::Two(a, b) => pair_of(number_of(a), number_of(b)),
    }
}

/// Adds what a production stands for.
fn add_production(
    facts: &mut Vec<u64>,
    rules: &mut Vec<Rule>,
    production: Production,
) -> Result<(), NoMemory>
    ensures facts { OnOk result
        (facts.new.items ≡ facts.old.items
        ++ fact_for production.left.0 (numbers_in production.right)) }
    ensures rules { OnOk result
        (rules.new.items ≡ rules.old.items
        ++ rule_for production.left.0 (numbers_in production.right)) }
{
    match premises(production.right) {
        None => facts.push(production.left.0)?,
        Some((first, second)) => rules.push(Rule {
            first,
            second,
            conclusion: production.left.0,
        })?,
    }
    Ok(())
}

/// Adds what the productions stand for.
fn add_productions(
    facts: &mut Vec<u64>,
    rules: &mut Vec<Rule>,
    productions: &[Production],
) -> Result<(), NoMemory>
    ensures facts { OnOk result (facts.new.items ≡ facts.old.items ++ facts_of productions.now) }
    ensures rules { OnOk result (rules.new.items ≡ rules.old.items ++ rules_of productions.now) }
{
    for production in productions {
        add_production(facts, rules, *production)?;
    }
    Ok(())
}

/// For each nonterminal, whether it derives something.
pub fn productive(alloc: Global, grammar: &Grammar) -> Result<Vec<bool>, NoMemory>
    ensures len { IfOk result (λ marks. length marks.items ≡ grammar.now.count) }
    ensures exact { IfOk result
        (λ marks. (a : nt.Nt)
        → IsMarked marks.items a.0 ↔ IsProductive grammar.now.productions.items a) }
{
    let mut facts = Vec::new(alloc);
    let mut rules = Vec::new(alloc);
    add_productions(&mut facts, &mut rules, grammar.productions.as_slice())?;
    let marks = closure(alloc, grammar.count, facts.as_slice(), rules.as_slice())?;
    Ok(marks)
}
