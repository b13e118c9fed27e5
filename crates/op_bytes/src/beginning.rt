//! The bytes that stand in a system.

ghost use Rattle.std.specs.Prelude.{◌≡◌, ◌<◌, ◌⊎◌, ◌↔◌, ℕ, Contains, All, length, IfOk};
ghost use Rattle.text_base.specs.declared.byte_range.ByteRange as byte_range;
ghost use Rattle.text_base.specs.ByteRange.{InRange};
ghost use Rattle.text_base.specs.ByteSet.{Has, no_bytes};
ghost use Rattle.cfg_grammar.specs.Below.{AreBelow, symbols_of};
ghost use Rattle.cfg_grammar.specs.declared.symbol.Symbol as symbols;
ghost use Rattle.op_system.specs.Rules.{RulesAreBelow};
ghost use Rattle.least_sets.specs.Bytes.{Adds};
ghost use Rattle.op_bytes.specs.Work.{Gains, HasRange, HasLiteral};

use crate::literals::literal_of;
use crate::turning::add_text;
use cfg_grammar::{Production, Right, Symbol};
use op_system::{Op, OpRule};
use std::alloc::Global;
use text_base::{ByteSet, NoMemory};

/// So many sets without any byte.
pub fn no_sets(alloc: Global, count: u64) -> Result<Vec<ByteSet>, NoMemory>
    ensures len { IfOk result (λ sets. length sets.items ≡ count) }
    ensures none { IfOk result (λ sets. All (λ set. set ≡ no_bytes) sets.items) }
{
    let mut sets = Vec::new(alloc);
    for _ in 0..count {
        sets.push(ByteSet::empty())?;
    }
    Ok(sets)
}

/// Adds the bytes of a symbol that is a range.
fn add_symbol(sets: &mut Vec<ByteSet>, left: u64, symbol: Symbol)
    requires { left < length sets.old.items }
    ensures { Gains sets.old.items
        (λ a b. (a ≡ left) × ((range : byte_range.ByteRange) × (symbol ≡ symbols.Symbol.Range range)
        × InRange range b)) sets.new.items }
{
    match symbol {
        Symbol::Range(range) => sets[left as usize].add(range),
        Symbol::Token(_) => {}
        Symbol::Nt(_) => {}
    }
}

/// Adds the bytes of the ranges of a production.
fn add_production(sets: &mut Vec<ByteSet>, p: Production)
    requires { p.left.0 < length sets.old.items }
    ensures { Gains sets.old.items
        (λ a b. (a ≡ p.left.0)
        × ((range : byte_range.ByteRange)
        × Contains (symbols_of p.right) (symbols.Symbol.Range range) × InRange range b))
        sets.new.items }
{
    match p.right {
        Right::Empty => {}
        Right::One(a) => add_symbol(sets, p.left.0, a),
        Right::Two(a, b) => {
            add_symbol(sets, p.left.0, a);
            add_symbol(sets, p.left.0, b);
        }
    }
}

/// Adds the bytes of the ranges of all productions.
pub fn add_ranges(sets: &mut Vec<ByteSet>, productions: &[Production])
    requires { AreBelow (length sets.old.items) productions.now }
    ensures { Gains sets.old.items (HasRange productions.now (length productions.now))
        sets.new.items }
{
    for p in productions {
        add_production(sets, *p);
    }
}

/// Adds the bytes that an operation has in any output.
fn add_literal(set: &mut ByteSet, op: &Op)
    ensures { (c : ℕ) → c < 256 → Has set.new c ↔ (Has set.old c ⊎ Adds op.now c) }
{
    add_text(set, literal_of(op));
}

/// Adds the bytes that the operation of a rule has in any output.
fn add_rule(sets: &mut Vec<ByteSet>, rule: &OpRule)
    requires { rule.now.left.0 < length sets.old.items }
    ensures { Gains sets.old.items (λ a b. (a ≡ rule.now.left.0) × Adds rule.now.op b)
        sets.new.items }
{
    add_literal(&mut sets[rule.left.0 as usize], &rule.op);
}

/// Adds the bytes that the operations of all rules have in any output.
pub fn add_literals(sets: &mut Vec<ByteSet>, rules: &[OpRule])
    requires { RulesAreBelow (length sets.old.items) rules.now }
    ensures { Gains sets.old.items (HasLiteral rules.now (length rules.now)) sets.new.items }
{
    for rule in rules {
        add_rule(sets, rule);
    }
}
