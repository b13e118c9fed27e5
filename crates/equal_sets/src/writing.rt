//! The system by what stands for its nonterminals.

ghost use Rattle.std.specs.Prelude.{◌≡◌, Contains, IsTrue, IfOk, OnOk};
ghost use Rattle.equal_sets.specs.Joined.{IsJoined};
ghost use Rattle.equal_sets.specs.Sets as spec;
ghost use Rattle.equal_sets.specs.Fit.{IsFit};
ghost use Rattle.equal_sets.specs.Rows.{AreRows};
ghost use Rattle.equal_sets.specs.Written.{PutsProduction, AreProductionsOf, AreRulesOf};

use crate::passing::all_sets;
use crate::renaming::{production_of, set_of, stands};
use crate::rows::{Rows, rows_of};
use crate::same::is_same_production;
use cfg_grammar::{Grammar, Production};
use op_system::{OpRule, OpSystem};
use std::alloc::Global;
use text_base::{NoMemory, Nt};

/// Whether the production is the last of these.
fn is_last(productions: &[Production], production: Production) -> bool
    ensures { IsTrue result → Contains productions.now production }
{
    match productions.last().copied() {
        Some(last) => is_same_production(last, production),
        None => false,
    }
}

/// Puts a production behind the others, but where it is the last of them.
fn put(productions: &mut Vec<Production>, production: Production) -> Result<(), NoMemory>
    ensures { OnOk result
        (PutsProduction productions.old.items productions.new.items production) }
{
    if is_last(productions.as_slice(), production) {
        return Ok(());
    }
    productions.push(production)?;
    Ok(())
}

/// The productions of nonterminals that stand for themselves, by the sets.
fn productions_of(
    alloc: Global,
    sets: &[Nt],
    productions: &[Production],
) -> Result<Vec<Production>, NoMemory>
    ensures { IfOk result (λ made. AreProductionsOf sets.now productions.now made.items) }
{
    let mut made = Vec::new(alloc);
    for production in productions {
        if stands(sets, production.left) {
            put(&mut made, production_of(sets, *production))?;
        }
    }
    Ok(made)
}

/// The rule by the sets.
fn rule_of(alloc: Global, sets: &[Nt], rule: &OpRule) -> Result<OpRule, NoMemory>
    ensures { IfOk result (λ made. made ≡ spec.rule_of sets.now rule.now) }
{
    Ok(OpRule {
        left: set_of(sets, rule.left),
        op: rule.op.copy(alloc)?,
        operand: set_of(sets, rule.operand),
    })
}

/// The rules of nonterminals that stand for themselves, by the sets.
fn rules_of(alloc: Global, sets: &[Nt], rules: &[OpRule]) -> Result<Vec<OpRule>, NoMemory>
    ensures { IfOk result (λ made. AreRulesOf sets.now rules.now made.items) }
{
    let mut made = Vec::new(alloc);
    for rule in rules {
        if stands(sets, rule.left) {
            let by_sets = rule_of(alloc, sets, rule)?;
            made.push(by_sets)?;
        }
    }
    Ok(made)
}

/// The grammar of these productions.
fn grammar_of(rows: &Rows<'_>, sets: &[Nt], productions: Vec<Production>) -> Grammar
    requires fit { IsFit rows.now.system.now rows.now.numbers.items sets.now }
    requires productions { AreProductionsOf sets.now
        rows.now.system.now.grammar.productions.items productions.items }
    ensures productions { result.productions.items ≡ productions.items }
    ensures count { result.count ≡ rows.now.system.now.grammar.count }
{
    Grammar {
        start: set_of(sets, rows.system.grammar.start),
        count: rows.system.grammar.count,
        productions,
    }
}

/// The system of this grammar and these rules.
fn system_of(rows: &Rows<'_>, sets: &[Nt], grammar: Grammar, ops: Vec<OpRule>) -> OpSystem
    requires rows { AreRows rows.now }
    requires fit { IsFit rows.now.system.now rows.now.numbers.items sets.now }
    requires productions { AreProductionsOf sets.now
        rows.now.system.now.grammar.productions.items grammar.productions.items }
    requires count { grammar.count ≡ rows.now.system.now.grammar.count }
    requires rules { AreRulesOf sets.now rows.now.system.now.ops.items ops.items }
    ensures { IsJoined rows.now.system.now result }
{
    OpSystem {
        start: set_of(sets, rows.system.start),
        grammar,
        ops,
    }
}

/// The system in which sets with the same rows are one, an operation in a cycle being told from one
/// in none: a set that only takes over another is that set, and two sets that have the same rows by
/// these, one by one, are one. Linear in the system.
pub fn join_equal(alloc: Global, s: &OpSystem) -> Result<OpSystem, NoMemory>
    ensures { IfOk result (IsJoined s.now) }
{
    let rows = rows_of(alloc, s)?;
    let sets = all_sets(alloc, &rows)?;
    let of = sets.of.as_slice();
    let productions = productions_of(alloc, of, rows.system.grammar.productions.as_slice())?;
    let ops = rules_of(alloc, of, rows.system.ops.as_slice())?;
    let grammar = grammar_of(&rows, of, productions);
    Ok(system_of(&rows, of, grammar, ops))
}
