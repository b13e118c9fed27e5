//! Operations in a cycle.

ghost use Rattle.std.specs.Prelude.{◌↔◌, Contains, IfOk, IsTrue};
ghost use Rattle.op_bytes.specs.Cycles.{AreNumbers, AreCircular, IsInCycle};

use crate::steps::steps;
use op_system::{Op, OpRule, OpSystem};
use std::alloc::Global;
use strong_components::components;
use text_base::NoMemory;

/// A number for each nonterminal: none depends on one with a higher number, and those with one
/// number depend on each other. Time and memory are linear in the system.
pub fn numbers(alloc: Global, s: &OpSystem) -> Result<Vec<usize>, NoMemory>
    ensures { IfOk result (λ numbers. AreNumbers s.now numbers.items) }
{
    let edges = steps(alloc, s)?;
    let numbers = components(alloc, edges.as_slice())?;
    Ok(numbers)
}

/// Whether the operation of a rule is in a cycle, by the numbers of nonterminals. `Op::Any` is
/// taken so always.
pub fn is_circular(s: &OpSystem, numbers: &[usize], rule: &OpRule) -> bool
    requires numbers { AreNumbers s.now numbers.now }
    requires rule { Contains s.now.ops.items rule.now }
    ensures { IsTrue result ↔ IsInCycle s.now rule.now }
{
    match rule.op {
        Op::Any => true,
        _ => numbers[rule.left.0 as usize] == numbers[rule.operand.0 as usize],
    }
}

/// For each rule of a system, whether its operation is in a cycle: whether its operand depends on
/// what it makes. `Op::Any` is taken so always. Time and memory are linear in the system.
pub fn circular(alloc: Global, s: &OpSystem) -> Result<Vec<bool>, NoMemory>
    ensures { IfOk result (λ marks. AreCircular s.now marks.items) }
{
    let numbers = numbers(alloc, s)?;
    let mut marks = Vec::new(alloc);
    for rule in &s.ops {
        marks.push(is_circular(s, numbers.as_slice(), rule))?;
    }
    Ok(marks)
}
