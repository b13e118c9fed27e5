//! Images of the texts of an operand.

ghost use Rattle.std.specs.Prelude.{◌≡◌, ◌≢◌, ◌<◌, ◌≤◌, ◌+◌, length, IfOk, IfErr, OnOk};
ghost use Rattle.cfg_grammar.specs.Below.{AreBelow};
ghost use Rattle.op_system.specs.declared.op.Op.TheVariants.{Any};
ghost use Rattle.resolving.specs.Drafts as laws;
ghost use Rattle.resolving.specs.Drafted.{IsImageOf};
ghost use Rattle.resolving.specs.Draft.{IsIndexed};
ghost use Rattle.resolving.specs.Images.{AddsMoved, AddsProductions, FitsSymbol, FitsProduction, IsImageCause};

use crate::any_texts::link;
use crate::draft::{Draft, put, widen};
use cfg_grammar::{Grammar, Production, Right, Symbol};
use fst_core::IndexedTable;
use grammar_image::{ImageRefusal, image_over};
use op_system::OpRule;
use std::alloc::Global;
use string_ops::machine_of;
use text_base::{NoMemory, Nt};

/// The symbol with its number so much higher.
fn moved_symbol(base: u64, symbol: Symbol) -> Symbol
    requires { FitsSymbol base symbol }
    ensures { result ≡ laws.moved_symbol base symbol }
{
    match symbol {
        Symbol::Range(range) => Symbol::Range(range),
        Symbol::Token(token) => Symbol::Token(token),
        Symbol::Nt(a) => Symbol::Nt(Nt(base + a.0)),
    }
}

/// The production with each number so much higher.
fn moved(base: u64, production: Production) -> Production
    requires { FitsProduction base production }
    ensures { result ≡ laws.moved base production }
{
    let right = match production.right {
        Right::Empty => Right::Empty,
        Right::One(a) => Right::One(moved_symbol(base, a)),
        Right::Two(a, b) => Right::Two(moved_symbol(base, a), moved_symbol(base, b)),
    };
    Production {
        left: Nt(base + production.left.0),
        right,
    }
}

/// Puts the productions without a page token, with their numbers so much higher.
fn put_moved(
    draft: &mut Draft,
    base: u64,
    count: u64,
    productions: &[Production],
) -> Result<(), NoMemory>
    requires indexed { IsIndexed draft.old }
    requires room { base + count ≤ length draft.old.chains.last.items }
    requires fits { base + count < 18446744073709551616 }
    requires below { AreBelow count productions.now }
    ensures { OnOk result
        (AddsProductions base productions.now (length productions.now) draft.old draft.new) }
{
    for production in productions {
        if !production.is_without_token() {
            continue;
        }
        put(draft, moved(base, *production))?;
    }
    Ok(())
}

/// Adds the sentences of a grammar without page tokens to the texts of a nonterminal.
pub fn add_grammar(
    alloc: Global,
    draft: &mut Draft,
    left: Nt,
    image: &Grammar,
) -> Result<(), NoMemory>
    requires indexed { IsIndexed draft.old }
    requires below { left.0 < length draft.old.chains.last.items }
    ensures { OnOk result (AddsMoved left image.now draft.old draft.new) }
{
    let base = draft.chains.last.len() as u64;
    widen(draft, image.count)?;
    let _count = draft.chains.last.len() as u64;
    put(draft, link(left, Nt(base + image.start.0)))?;
    put_moved(draft, base, image.count, image.productions.as_slice())?;
    Ok(())
}

/// The image of the texts that a draft derives for the operand of a rule, under the machine of its
/// operation.
pub fn image_of(
    alloc: Global,
    draft: &Draft,
    rule: &OpRule,
    limit: u64,
) -> Result<Grammar, ImageRefusal>
    requires indexed { IsIndexed draft.now }
    requires below { rule.now.operand.0 < length draft.now.chains.last.items }
    requires op { rule.now.op ≢ Any }
    ensures image { IfOk result (IsImageOf draft.now.productions.items rule.now) }
    ensures cause { IfErr result (IsImageCause draft.now.productions.items rule.now limit) }
{
    let table = machine_of(alloc, &rule.op)?;
    let machine = IndexedTable::new(alloc, table)?;
    match image_over(
        alloc,
        draft.productions.as_slice(),
        &draft.chains,
        rule.operand,
        &machine,
        limit,
    ) {
        Ok(image) => Ok(image),
        Err(refusal) => Err(refusal),
    }
}
