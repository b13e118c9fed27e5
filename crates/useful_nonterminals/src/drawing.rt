//! What follows from facts by rules, in time linear in both.

ghost use Rattle.std.specs.Prelude.{◌≡◌, ◌<◌, ◌↔◌, [], ℕ, List, Some, slice_get, Contains, length, map, IfOk, OnOk};
ghost use Rattle.std.specs.List.{All};
ghost use Rattle.numbered_sets.specs.Chains.{AreChains, Falls};
ghost use Rattle.numbered_sets.specs.Numbers.{Keeps, AddsOnly};
ghost use Rattle.useful_nonterminals.specs.Follows.{Follows, IsRuleBelow, IsMarked};
ghost use Rattle.useful_nonterminals.specs.Work.{IsNoted, Concludes};

use crate::rule::Rule;
use numbered_sets::{Chains, chains_of};
use std::alloc::Global;
use text_base::NoMemory;

/// For each number, the rules whose first premise it is.
fn by_first(alloc: Global, count: u64, rules: &[Rule]) -> Result<Chains, NoMemory>
    requires { All (IsRuleBelow count) rules.now }
    ensures len { IfOk result (λ chains. length chains.last.items ≡ count) }
    ensures chains { IfOk result (λ chains. AreChains (map (λ r. r.first) rules.now)
        chains.last.items chains.before.items) }
{
    let keys: Vec<u64> = rules.iter().map(|r| r.first).collect(alloc)?;
    let chains = chains_of(alloc, count, keys.as_slice())?;
    Ok(chains)
}

/// For each number, the rules whose second premise it is.
fn by_second(alloc: Global, count: u64, rules: &[Rule]) -> Result<Chains, NoMemory>
    requires { All (IsRuleBelow count) rules.now }
    ensures len { IfOk result (λ chains. length chains.last.items ≡ count) }
    ensures chains { IfOk result (λ chains. AreChains (map (λ r. r.second) rules.now)
        chains.last.items chains.before.items) }
{
    let keys: Vec<u64> = rules.iter().map(|r| r.second).collect(alloc)?;
    let chains = chains_of(alloc, count, keys.as_slice())?;
    Ok(chains)
}

/// Marks a number, and puts it behind the others where it was not marked.
fn mark(marks: &mut Vec<bool>, order: &mut Vec<u64>, n: u64) -> Result<(), NoMemory>
    requires below { n < length marks.old.items }
    requires noted { IsNoted marks.old.items order.old.items }
    ensures long { OnOk result (length marks.new.items ≡ length marks.old.items) }
    ensures noted { OnOk result (IsNoted marks.new.items order.new.items) }
    ensures keeps { OnOk result (Keeps order.old.items order.new.items) }
    ensures adds { OnOk result (AddsOnly order.old.items order.new.items n) }
    ensures listed { OnOk result (Contains order.new.items n) }
{
    if marks[n as usize] {
        return Ok(());
    }
    order.push(n)?;
    marks[n as usize] = true;
    Ok(())
}

/// The rule at a place.
fn rule_at(rules: &[Rule], place: usize) -> Option<Rule>
    ensures { result ≡ slice_get rules.now place }
{
    rules.get(place).copied()
}

/// The number at a place.
fn number_at(order: &[u64], place: usize) -> Option<u64>
    ensures { result ≡ slice_get order.now place }
{
    order.get(place).copied()
}

/// Draws the conclusion of a rule, where its premises are marked.
fn conclude_one(
    rules: &[Rule],
    place: usize,
    marks: &mut Vec<bool>,
    order: &mut Vec<u64>,
) -> Result<(), NoMemory>
    requires below { All (IsRuleBelow (length marks.old.items)) rules.now }
    requires noted { IsNoted marks.old.items order.old.items }
    ensures { OnOk result (Concludes rules.now (λ k. k ≡ place) marks.old.items order.old.items
        marks.new.items order.new.items) }
{
    let Some(rule) = rule_at(rules, place) else {
        return Ok(());
    };
    if !marks[rule.first as usize] {
        return Ok(());
    }
    if !marks[rule.second as usize] {
        return Ok(());
    }
    mark(marks, order, rule.conclusion)
}

/// Draws the conclusions of the rules on the chain of a number whose premises are marked.
fn conclude(
    rules: &[Rule],
    chains: &Chains,
    n: u64,
    marks: &mut Vec<bool>,
    order: &mut Vec<u64>,
) -> Result<(), NoMemory>
    requires number { n < length chains.now.last.items }
    requires falls { Falls chains.now.before.items }
    requires below { All (IsRuleBelow (length marks.old.items)) rules.now }
    requires noted { IsNoted marks.old.items order.old.items }
    ensures long { OnOk result (length marks.new.items ≡ length marks.old.items) }
    ensures noted { OnOk result (IsNoted marks.new.items order.new.items) }
    ensures drawn { OnOk result
        ((keys : List ℕ) → AreChains keys chains.now.last.items chains.now.before.items
        → Concludes rules.now (λ k. slice_get keys k ≡ Some n) marks.old.items order.old.items
        marks.new.items order.new.items) }
{
    let mut place = chains.last_place(n);
    while let Some(next) = chains.place_before(place) {
        conclude_one(rules, place, marks, order)?;
        place = next;
    }
    Ok(())
}

/// Marks all facts.
fn mark_all(marks: &mut Vec<bool>, order: &mut Vec<u64>, facts: &[u64]) -> Result<(), NoMemory>
    requires below { All (λ n. n < length marks.old.items) facts.now }
    requires noted { IsNoted marks.old.items order.old.items }
    requires none { order.old.items ≡ [] }
    ensures long { OnOk result (length marks.new.items ≡ length marks.old.items) }
    ensures noted { OnOk result (IsNoted marks.new.items order.new.items) }
    ensures exact { OnOk result ((n : ℕ) → Contains order.new.items n ↔ Contains facts.now n) }
{
    for fact in facts {
        mark(marks, order, *fact)?;
    }
    Ok(())
}

/// Which numbers below the count follow.
pub fn closure(
    alloc: Global,
    count: u64,
    facts: &[u64],
    rules: &[Rule],
) -> Result<Vec<bool>, NoMemory>
    requires facts { All (λ n. n < count) facts.now }
    requires rules { All (IsRuleBelow count) rules.now }
    ensures len { IfOk result (λ marks. length marks.items ≡ count) }
    ensures exact { IfOk result
        (λ marks. (n : ℕ) → IsMarked marks.items n ↔ Follows facts.now rules.now n) }
{
    let firsts = by_first(alloc, count, rules)?;
    let seconds = by_second(alloc, count, rules)?;
    let mut marks = vec![in alloc; false; count as usize]?;
    let mut order = Vec::new(alloc);
    mark_all(&mut marks, &mut order, facts)?;
    let mut taken = 0;
    while let Some(n) = number_at(order.as_slice(), taken) {
        conclude(rules, &firsts, n, &mut marks, &mut order)?;
        conclude(rules, &seconds, n, &mut marks, &mut order)?;
        taken += 1;
    }
    Ok(marks)
}
