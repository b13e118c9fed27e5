//! The graph of a system: an edge from each nonterminal to each that it names.

ghost use Rattle.std.specs.Prelude.{◌≡◌, ◌<◌, ◌↔◌, ℕ, [], Contains, All, vec_len, length, IfOk, OnOk};
ghost use Rattle.cfg_grammar.specs.declared.symbol.Symbol as symbols;
ghost use Rattle.cfg_grammar.specs.Below.{AreBelow, production_below, symbol_below, symbols_of};
ghost use Rattle.strong_components.specs.Edges.{HasEdge, AreWithin};
ghost use Rattle.op_system.specs.Rules.{RulesAreBelow};
ghost use Rattle.op_bytes.specs.Steps.{AddsEdges, IsFirstStep, IsFirstRule, IsStep};

use cfg_grammar::{Production, Right, Symbol};
use op_system::{OpRule, OpSystem};
use std::alloc::Global;
use strong_components::Targets;
use text_base::{NoMemory, Nt};

/// No edges, for so many nodes.
fn no_edges(alloc: Global, count: u64) -> Result<Vec<Targets>, NoMemory>
    ensures len { IfOk result (λ edges. vec_len edges ≡ count) }
    ensures none { IfOk result (λ edges. All (λ targets. targets.items ≡ []) edges.items) }
{
    let mut edges = Vec::new(alloc);
    for _ in 0..count {
        edges.push(Targets::new(alloc))?;
    }
    Ok(edges)
}

/// Adds one edge.
fn add_edge(edges: &mut Vec<Targets>, from: Nt, to: Nt) -> Result<(), NoMemory>
    requires { from.0 < vec_len edges.old }
    ensures len { vec_len edges.new ≡ vec_len edges.old }
    ensures adds { OnOk result
        (AddsEdges edges.old.items edges.new.items (λ a b. (a ≡ from.0) × (b ≡ to.0))) }
{
    edges[from.0 as usize].push(to.0 as usize)?;
    Ok(())
}

/// Adds the edge to a symbol, where that is a nonterminal.
fn add_symbol(edges: &mut Vec<Targets>, from: Nt, symbol: Symbol) -> Result<(), NoMemory>
    requires { from.0 < vec_len edges.old }
    ensures len { vec_len edges.new ≡ vec_len edges.old }
    ensures adds { OnOk result
        (AddsEdges edges.old.items edges.new.items
        (λ a b. (a ≡ from.0) × (symbol ≡ symbols.Symbol.Nt (record { 0 = b })))) }
{
    match symbol {
        Symbol::Range(_) => Ok(()),
        Symbol::Token(_) => Ok(()),
        Symbol::Nt(to) => add_edge(edges, from, to),
    }
}

/// Adds the edges of a production.
fn add_production(edges: &mut Vec<Targets>, p: Production) -> Result<(), NoMemory>
    requires { p.left.0 < vec_len edges.old }
    ensures len { vec_len edges.new ≡ vec_len edges.old }
    ensures adds { OnOk result (AddsEdges edges.old.items edges.new.items
        (λ a b. (a ≡ p.left.0)
        × Contains (symbols_of p.right) (symbols.Symbol.Nt (record { 0 = b })))) }
{
    match p.right {
        Right::Empty => Ok(()),
        Right::One(a) => add_symbol(edges, p.left, a),
        Right::Two(a, b) => {
            add_symbol(edges, p.left, a)?;
            add_symbol(edges, p.left, b)
        }
    }
}

/// Adds the edges of all productions.
fn add_productions(edges: &mut Vec<Targets>, productions: &[Production]) -> Result<(), NoMemory>
    requires { AreBelow (vec_len edges.old) productions.now }
    ensures len { vec_len edges.new ≡ vec_len edges.old }
    ensures adds { OnOk result
        (AddsEdges edges.old.items edges.new.items
        (IsFirstStep productions.now (length productions.now))) }
{
    for p in productions {
        add_production(edges, *p)?;
    }
    Ok(())
}

/// Adds the edges of all rules.
fn add_rules(edges: &mut Vec<Targets>, rules: &[OpRule]) -> Result<(), NoMemory>
    requires { RulesAreBelow (vec_len edges.old) rules.now }
    ensures len { vec_len edges.new ≡ vec_len edges.old }
    ensures adds { OnOk result
        (AddsEdges edges.old.items edges.new.items (IsFirstRule rules.now (length rules.now))) }
{
    for rule in rules {
        add_edge(edges, rule.left, rule.operand)?;
    }
    Ok(())
}

/// For each nonterminal, those that it names.
pub fn steps(alloc: Global, s: &OpSystem) -> Result<Vec<Targets>, NoMemory>
    ensures len { IfOk result (λ edges. vec_len edges ≡ s.now.grammar.count) }
    ensures exact { IfOk result
        (λ edges. (a b : ℕ)
        → HasEdge edges.items a b ↔ IsStep s.now.grammar.productions.items s.now.ops.items a b) }
    ensures within { IfOk result (λ edges. AreWithin edges.items) }
{
    let mut edges = no_edges(alloc, s.grammar.count)?;
    add_productions(&mut edges, s.grammar.productions.as_slice())?;
    add_rules(&mut edges, s.ops.as_slice())?;
    Ok(edges)
}
