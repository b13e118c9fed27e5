//! Productions and rules that are written.

ghost use Rattle.std.specs.Prelude.{◌≡◌, OnOk};
ghost use Rattle.system_writing.specs.Rights as spec;
ghost use Rattle.system_writing.specs.Steps.{AddsProduction, AddsRule, WritesText, WritesBefore};

use crate::ends::put_text;
use cfg_grammar::{Production, Right, Symbol};
use op_system::{Op, OpRule};
use text_base::{NoMemory, Nt};

/// Productions and rules, over the nonterminals below `count`.
#[derive(Debug, Drop)]
pub struct Lines {
    pub count: u64,
    pub productions: Vec<Production>,
    pub rules: Vec<OpRule>,
}

/// Puts a production behind the others.
pub(crate) fn add_production(lines: &mut Lines, set: u64, right: Right) -> Result<(), NoMemory>
    ensures { OnOk result (AddsProduction lines.old lines.new set right) }
{
    lines.productions.push(Production {
        left: Nt(set),
        right,
    })?;
    Ok(())
}

/// Puts a rule behind the others.
pub(crate) fn add_rule(lines: &mut Lines, set: u64, op: Op, operand: u64) -> Result<(), NoMemory>
    ensures { OnOk result (AddsRule lines.old lines.new set op operand) }
{
    lines.rules.push(OpRule {
        left: Nt(set),
        op,
        operand: Nt(operand),
    })?;
    Ok(())
}

fn text_right(end: Option<Symbol>) -> Right
    ensures { result ≡ spec.text_right end }
{
    match end {
        None => Right::Empty,
        Some(symbol) => Right::One(symbol),
    }
}

fn before_right(end: Option<Symbol>, set: u64) -> Right
    ensures { result ≡ spec.before_right end set }
{
    match end {
        None => Right::One(Symbol::Nt(Nt(set))),
        Some(symbol) => Right::Two(symbol, Symbol::Nt(Nt(set))),
    }
}

/// A text of a set.
pub(crate) fn add_text(lines: &mut Lines, set: u64, text: &[u8]) -> Result<(), NoMemory>
    ensures { OnOk result (WritesText lines.old lines.new set text.now) }
{
    let end = put_text(lines, text)?;
    add_production(lines, set, text_right(end))
}

/// A text before each of another set.
pub(crate) fn add_before(
    lines: &mut Lines,
    set: u64,
    text: &[u8],
    other: u64,
) -> Result<(), NoMemory>
    ensures { OnOk result (WritesBefore lines.old lines.new set text.now other) }
{
    let end = put_text(lines, text)?;
    add_production(lines, set, before_right(end, other))
}

/// Each text of another set.
pub(crate) fn add_same(lines: &mut Lines, set: u64, other: u64) -> Result<(), NoMemory>
    ensures { OnOk result (AddsProduction lines.old lines.new set (spec.same_right other)) }
{
    add_production(lines, set, Right::One(Symbol::Nt(Nt(other))))
}
