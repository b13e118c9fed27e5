//! Adding one rule to a draft.

ghost use Rattle.std.specs.Prelude.{◌≡◌, ◌<◌, Contains, Some, slice_get, length, IfErr, OnOk};
ghost use Rattle.op_bytes.specs.Cycles.{AreNumbers};
ghost use Rattle.op_bytes.specs.SystemBytes.{HasBytes};
ghost use Rattle.resolving.specs.Drafts.{IsDraft, IsReady};
ghost use Rattle.resolving.specs.AnyTexts.{AddsAnyTexts, AreNeededSets};
ghost use Rattle.resolving.specs.Causes.{IsCause};
ghost use Rattle.resolving.specs.Draft.{IsIndexed};
ghost use Rattle.resolving.specs.Order.{AddsRule, IsDraftOf, IsReadyFor, MayBeAdded};

use crate::any_texts::add_any_texts;
use crate::draft::Draft;
use crate::images::{add_grammar, image_of};
use grammar_image::ImageRefusal;
use op_bytes::is_circular;
use op_system::{OpRule, OpSystem};
use std::alloc::Global;
use text_base::{ByteSet, NoMemory};

/// Adds what an operation in a cycle gives: all texts over the bytes of the set of its left side.
fn add_cycle(alloc: Global, rule: &OpRule, set: &ByteSet, draft: &mut Draft) -> Result<(), NoMemory>
    requires indexed { IsIndexed draft.old }
    requires below { rule.now.left.0 < length draft.old.chains.last.items }
    ensures { OnOk result (AddsAnyTexts rule.now.left set.now draft.old draft.new) }
{
    add_any_texts(alloc, draft, rule.left, set)
}

/// Adds what the operation of a rule gives, where all rules are added whose left sides have lower
/// numbers.
pub fn add_rule(
    alloc: Global,
    s: &OpSystem,
    numbers: &[usize],
    sets: &[ByteSet],
    rule: &OpRule,
    limit: u64,
    draft: &mut Draft,
) -> Result<(), ImageRefusal>
    requires bytes { HasBytes s.now }
    requires numbers { AreNumbers s.now numbers.now }
    requires sets { AreNeededSets s.now sets.now }
    requires rule { Contains s.now.ops.items rule.now }
    requires draft { IsDraftOf s.now draft.old }
    requires next { MayBeAdded s.now rule.now draft.old }
    requires ready { IsReadyFor s.now numbers.now draft.old.productions.items rule.now }
    ensures adds { OnOk result (AddsRule s.now rule.now draft.old draft.new) }
    ensures cause { IfErr result (IsCause s.now limit) }
{
    if is_circular(s, numbers, rule) {
        add_cycle(alloc, rule, &sets[rule.left.0 as usize], draft)?;
        return Ok(());
    }
    let image = match image_of(alloc, draft, rule, limit) {
        Ok(image) => image,
        Err(refusal) => return Err(refusal),
    };
    add_grammar(alloc, draft, rule.left, &image)?;
    Ok(())
}
