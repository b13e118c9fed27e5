//! All texts over some bytes.

ghost use Rattle.std.specs.Prelude.{◌≡◌, ◌<◌, length, IfOk, OnOk};
ghost use Rattle.text_base.specs.ByteSet.{Has};
ghost use Rattle.resolving.specs.AnyTexts.{AddsAnyTexts, IsRunAt, PutsFrom, PutsRuns};
ghost use Rattle.resolving.specs.Drafts.{link_of};
ghost use Rattle.resolving.specs.Draft.{IsIndexed};

use crate::draft::{Draft, put, widen};
use cfg_grammar::{Production, Right, Symbol};
use std::alloc::Global;
use text_base::{ByteRange, ByteSet, NoMemory, Nt};

/// The production by which the one nonterminal becomes the other.
pub fn link(left: Nt, right: Nt) -> Production
    ensures { result ≡ link_of left right }
{
    Production {
        left,
        right: Right::One(Symbol::Nt(right)),
    }
}

/// The range of those neighbouring bytes of the set that begins at this byte.
fn run_at(set: &ByteSet, first: u8) -> ByteRange
    requires { Has set.now first }
    ensures { IsRunAt set.now first result }
{
    for last in first..255_u8 {
        if !set.has(last + 1) {
            return ByteRange {
                lo: first,
                hi: last,
            };
        }
    }
    ByteRange { lo: first, hi: 255 }
}

/// Puts the production by which a nonterminal becomes a byte of the run that begins at this byte,
/// before itself, where the byte is in the set. The next place behind it at which a run may begin.
fn put_run(draft: &mut Draft, texts: Nt, set: &ByteSet, first: u8) -> Result<usize, NoMemory>
    requires indexed { IsIndexed draft.old }
    requires below { texts.0 < length draft.old.chains.last.items }
    ensures { IfOk result (λ next. PutsFrom texts set.now first next draft.old draft.new) }
{
    if !set.has(first) {
        return Ok(usize::from(first) + 1);
    }
    let range = run_at(set, first);
    put(
        draft,
        Production {
            left: texts,
            right: Right::Two(Symbol::Range(range), Symbol::Nt(texts)),
        },
    )?;
    Ok(usize::from(range.hi) + 2)
}

/// Does so for each run of bytes of a set.
fn put_runs(draft: &mut Draft, texts: Nt, set: &ByteSet) -> Result<(), NoMemory>
    requires indexed { IsIndexed draft.old }
    requires below { texts.0 < length draft.old.chains.last.items }
    ensures { OnOk result (PutsRuns texts set.now 0 257 draft.old draft.new) }
{
    let mut next = 0;
    while next < 256 {
        next = put_run(draft, texts, set, next as u8)?;
    }
    Ok(())
}

/// Adds all texts over the bytes of a set to those of a nonterminal: one nonterminal, and at most
/// 130 productions.
pub fn add_any_texts(
    alloc: Global,
    draft: &mut Draft,
    left: Nt,
    set: &ByteSet,
) -> Result<(), NoMemory>
    requires indexed { IsIndexed draft.old }
    requires below { left.0 < length draft.old.chains.last.items }
    ensures { OnOk result (AddsAnyTexts left set.now draft.old draft.new) }
{
    let texts = Nt(draft.chains.last.len() as u64);
    widen(draft, 1)?;
    put(draft, link(left, texts))?;
    put(
        draft,
        Production {
            left: texts,
            right: Right::Empty,
        },
    )?;
    put_runs(draft, texts, set)?;
    Ok(())
}
