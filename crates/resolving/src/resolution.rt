//! Resolving a system.

ghost use Rattle.std.specs.Prelude.{◌≡◌, ◌↔◌, ◌<◌, ℕ, List, [], IfOk, IfErr, OnOk};
ghost use Rattle.text_base.specs.declared.letter.Letter.{Letter};
ghost use Rattle.cfg_grammar.specs.Derives.{Derives};
ghost use Rattle.cfg_grammar.specs.Tokens.{HaveNoToken};
ghost use Rattle.cfg_grammar.specs.declared.symbol.Symbol as symbols;
ghost use Rattle.op_bytes.specs.Cycles.{AreNumbers};
ghost use Rattle.op_bytes.specs.SystemBytes.{HasBytes};
ghost use Rattle.resolving.specs.Resolved.{HasLetters};
ghost use Rattle.resolving.specs.Drafted.{IsResolved};
ghost use Rattle.resolving.specs.AnyTexts.{AreNeededSets};
ghost use Rattle.resolving.specs.Causes.{IsCause};
ghost use Rattle.resolving.specs.Order.{AllAdded, IsDraftedBy, IsDraftOf, IsOrder};

use crate::draft::{Draft, begin};
use crate::order::{Ranked, rules_in_order};
use crate::rules::add_rule;
use cfg_grammar::Grammar;
use grammar_image::ImageRefusal;
use op_bytes::{byte_sets, fits, is_circular, numbers};
use op_system::OpSystem;
use std::alloc::Global;
use text_base::{ByteSet, NoMemory};

/// The byte sets of a system with some operation in a cycle; none where there is no such operation.
fn needed_sets(alloc: Global, s: &OpSystem, numbers: &[usize]) -> Result<Vec<ByteSet>, NoMemory>
    requires numbers { AreNumbers s.now numbers.now }
    ensures { IfOk result (λ sets. AreNeededSets s.now sets.items) }
{
    for rule in &s.ops {
        if is_circular(s, numbers, rule) {
            return byte_sets(alloc, s);
        }
    }
    Ok(Vec::new(alloc))
}

/// Adds all rules, in their order.
fn add_rules(
    alloc: Global,
    s: &OpSystem,
    numbers: &[usize],
    sets: &[ByteSet],
    order: &[Ranked],
    limit: u64,
    draft: &mut Draft,
) -> Result<(), ImageRefusal>
    requires bytes { HasBytes s.now }
    requires numbers { AreNumbers s.now numbers.now }
    requires sets { AreNeededSets s.now sets.now }
    requires order { IsOrder s.now numbers.now order.now }
    requires draft { IsDraftOf s.now draft.old }
    requires begins { IsDraftedBy s.now draft.old [] }
    ensures added { OnOk result (AllAdded s.now draft.new) }
    ensures cause { IfErr result (IsCause s.now limit) }
{
    for ranked in order {
        let rule = &s.ops[ranked.place];
        match add_rule(alloc, s, numbers, sets, rule, limit, draft) {
            Ok(()) => {}
            Err(refusal) => return Err(refusal),
        }
    }
    Ok(())
}

/// One grammar whose sentences are exactly the texts of the start's set. An operation in a cycle
/// stands there as all texts over its bytes, any other as the image of its operand. `Large` comes
/// only where the image of an operation in no cycle has more items than the limit, so many that it
/// says. No page token stands in the grammar; nonterminals that the start does not come to may
/// stand there. Each operation is added once, in time and memory of its image; the rest is linear
/// in the system, but for byte sets, which are made only where some operation is in a cycle, and
/// passed on at most 256 times, and for the sort of the rules.
pub fn resolve(alloc: Global, s: &OpSystem, limit: u64) -> Result<Grammar, ImageRefusal>
    ensures exact { IfOk result
        (λ g. (w : List Letter) → Derives g.productions.items (symbols.Symbol.Nt g.start) w
        ↔ HasLetters s.now (symbols.Symbol.Nt s.now.start) w) }
    ensures resolved { IfOk result (IsResolved s.now) }
    ensures plain { IfOk result (λ g. HaveNoToken g.productions.items) }
    ensures cause { IfErr result (IsCause s.now limit) }
{
    fits(s);
    let numbers = numbers(alloc, s)?;
    let sets = needed_sets(alloc, s, numbers.as_slice())?;
    let order = rules_in_order(alloc, s, numbers.as_slice())?;
    let mut draft = begin(alloc, s)?;
    match add_rules(
        alloc,
        s,
        numbers.as_slice(),
        sets.as_slice(),
        order.as_slice(),
        limit,
        &mut draft,
    ) {
        Ok(()) => {}
        Err(refusal) => return Err(refusal),
    }
    let count = draft.chains.last.len() as u64;
    Ok(Grammar {
        start: s.start,
        count,
        productions: draft.productions,
    })
}
