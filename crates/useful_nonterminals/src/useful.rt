//! The nonterminals that stand in some derivation from the start.

ghost use Rattle.std.specs.Prelude.{◌≡◌, ◌↔◌, ◌++◌, false, get_or, length, IfOk, OnOk};
ghost use Rattle.text_base.specs.declared.numbers.Nt as nt;
ghost use Rattle.useful_nonterminals.specs.Follows.{IsMarked};
ghost use Rattle.useful_nonterminals.specs.Useful.{IsUseful};
ghost use Rattle.useful_nonterminals.specs.Rules.{numbers_in, steps_to, step_for, steps_of, start_of};

use crate::drawing::closure;
use crate::producing::{premises, productive};
use crate::rule::Rule;
use cfg_grammar::{Grammar, Production};
use std::alloc::Global;
use text_base::NoMemory;

/// Whether a number is marked.
fn is_marked(marks: &[bool], n: u64) -> bool
    ensures { result ≡ get_or marks.now n false }
{
    match marks.get(n as usize) {
        Some(mark) => *mark,
        None => false,
    }
}

/// The start, where it is marked.
fn start_facts(alloc: Global, marks: &[bool], start: u64) -> Result<Vec<u64>, NoMemory>
    ensures { IfOk result (λ facts. facts.items ≡ start_of marks.now start) }
{
    let mut facts = Vec::new(alloc);
    if is_marked(marks, start) {
        facts.push(start)?;
    }
    Ok(facts)
}

/// Adds the steps from a left side to two numbers: one step where these are one.
fn add_steps_to(steps: &mut Vec<Rule>, left: u64, a: u64, b: u64) -> Result<(), NoMemory>
    ensures { OnOk result (steps.new.items ≡ steps.old.items ++ steps_to left a b) }
{
    steps.push(Rule {
        first: left,
        second: left,
        conclusion: a,
    })?;
    if a == b {
        return Ok(());
    }
    steps.push(Rule {
        first: left,
        second: left,
        conclusion: b,
    })?;
    Ok(())
}

/// Adds the steps from the left of a production to what stands on its right.
fn add_step(marks: &[bool], steps: &mut Vec<Rule>, production: Production) -> Result<(), NoMemory>
    ensures { OnOk result
        (steps.new.items ≡ steps.old.items
        ++ step_for marks.now production.left.0 (numbers_in production.right)) }
{
    let Some((a, b)) = premises(production.right) else {
        return Ok(());
    };
    if !(is_marked(marks, a) && is_marked(marks, b)) {
        return Ok(());
    }
    add_steps_to(steps, production.left.0, a, b)
}

/// The steps of all productions.
fn all_steps(
    alloc: Global,
    marks: &[bool],
    productions: &[Production],
) -> Result<Vec<Rule>, NoMemory>
    ensures { IfOk result (λ steps. steps.items ≡ steps_of marks.now productions.now) }
{
    let mut steps = Vec::new(alloc);
    for production in productions {
        add_step(marks, &mut steps, *production)?;
    }
    Ok(steps)
}

/// For each nonterminal, whether it stands in some derivation from the start. The time is linear
/// in the nonterminals and productions.
pub fn useful_nonterminals(alloc: Global, grammar: &Grammar) -> Result<Vec<bool>, NoMemory>
    ensures len { IfOk result (λ marks. length marks.items ≡ grammar.now.count) }
    ensures exact { IfOk result
        (λ marks. (a : nt.Nt)
        → IsMarked marks.items a.0 ↔ IsUseful grammar.now.productions.items grammar.now.start a) }
{
    let marks = productive(alloc, grammar)?;
    let facts = start_facts(alloc, marks.as_slice(), grammar.start.0)?;
    let steps = all_steps(alloc, marks.as_slice(), grammar.productions.as_slice())?;
    let marks = closure(alloc, grammar.count, facts.as_slice(), steps.as_slice())?;
    Ok(marks)
}
