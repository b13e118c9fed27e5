//! The productions of an image.

ghost use Rattle.std.specs.Prelude.{◌≡◌, ◌<◌, ◌≤◌, ◌+◌, ◌⊎◌, ◌++◌, ◌∷◌, [], ℕ, List, None, Some, Contains, All, IfOk, OnOk, IfSome, IfNone, IsTrue, true, slice_get, length, take};
ghost use Rattle.text_base.specs.declared.numbers.Nt as nt;
ghost use Rattle.text_base.specs.ByteRange.{InRange};
ghost use Rattle.cfg_grammar.specs.declared.symbol.Symbol as symbol;
ghost use Rattle.cfg_grammar.specs.declared.production.Production as plain;
ghost use Rattle.chart_grammar.specs.declared.fronts.Front as front;
ghost use Rattle.numbered_sets.specs.Numbers.{Keeps};
ghost use Rattle.grammar_chart.specs.Rules.{awaited_by, awaited_of, passage_by};
ghost use Rattle.grammar_chart.specs.Charts.{HasRead};
ghost use Rattle.chart_grammar.specs.Lifts.{RightLift, WholeLift, front_right, front_by, end_by};
ghost use Rattle.chart_grammar.specs.Written.{WritesOne, WritesAll};
ghost use Rattle.chart_grammar.specs.Writing.{WholeMade, WholeHas};
ghost use Rattle.chart_grammar.specs.Sources.{AllComeOf};

use crate::fronts::Front;
use cfg_grammar::{Production, Right, Symbol};
use fst_core::Out;
use grammar_chart::rules::{awaited, production_at, whole_passage};
use grammar_chart::{Begun, Passage, Read};
use indexmap::IndexSet;
use numbered_sets::number_of;
use text_base::{NoMemory, Nt};

/// What is put out where the text ends in a state.
#[derive(Drop)]
pub struct Last {
    pub state: u64,
    pub out: Vec<Out>,
}

/// The nonterminal of a passage, if it is one.
pub fn nonterminal_of(passages: &IndexSet<Passage>, passage: Passage) -> Option<Nt>
    ensures some { IfSome result
        (λ a. (k : ℕ) × (slice_get passages.now.keys k ≡ Some passage) × (a.0 ≡ k + 1)) }
    ensures none { IfNone result (Contains passages.now.keys passage → ⊥) }
{
    match number_of(passages, &passage) {
        Some(number) => Some(Nt(number as u64 + 1)),
        None => None,
    }
}

/// The right side by the passages that its symbols were read by.
fn lift_right(passages: &IndexSet<Passage>, right: Right, from: u64, read: Read) -> Option<Right>
    ensures some { IfSome result (λ r. RightLift passages.now.keys right from read r) }
    ensures none { IfNone result
        (HasRead passages.now.keys right from read → awaited_by right from read ≡ None → ⊥) }
{
    match (right, read) {
        (Right::Empty, Read::Nothing) => Some(Right::Empty),
        (Right::One(symbol), Read::First(to)) => {
            match nonterminal_of(passages, Passage { symbol, from, to }) {
                Some(a) => Some(Right::One(Symbol::Nt(a))),
                None => None,
            }
        }
        (Right::Two(symbol, second), Read::Both(to, last)) => {
            let first = Passage { symbol, from, to };
            let other = Passage {
                symbol: second,
                from: to,
                to: last,
            };
            match (
                nonterminal_of(passages, first),
                nonterminal_of(passages, other),
            ) {
                (Some(a), Some(b)) => Some(Right::Two(Symbol::Nt(a), Symbol::Nt(b))),
                _ => None,
            }
        }
        _ => None,
    }
}

/// The production of a begun production whose symbols are all read, by their passages.
fn lift_whole(
    productions: &[Production],
    passages: &IndexSet<Passage>,
    one: Begun,
) -> Option<Production>
    ensures some { IfSome result (λ p. WholeLift productions.now passages.now.keys one p) }
    ensures none { IfNone result
        ((q : plain.Production) → slice_get productions.now one.place ≡ Some q
        → awaited_of productions.now one ≡ None
        → Contains passages.now.keys (passage_by q one)
        → HasRead passages.now.keys q.right one.from one.read → ⊥) }
{
    let Some(production) = production_at(productions, one.place) else {
        return None;
    };
    let Some(left) = nonterminal_of(passages, whole_passage(production, one)) else {
        return None;
    };
    match lift_right(passages, production.right, one.from, one.read) {
        Some(right) => Some(Production { left, right }),
        None => None,
    }
}

/// Writes the production of a begun production, and at which place of the grammar it stands, if it
/// is read whole.
fn write_whole(
    productions: &[Production],
    passages: &IndexSet<Passage>,
    out: &mut Vec<Production>,
    sources: &mut Vec<u64>,
    one: Begun,
) -> Result<(), NoMemory>
    ensures writes { OnOk result
        (WritesOne {X = front.Front} (WholeMade productions.now passages.now.keys)
        (WholeHas productions.now passages.now.keys)
        one [] [] out.old.items out.new.items) }
    ensures sources { OnOk result
        (AllComeOf productions.now passages.now.keys sources.old.items out.old.items
        → AllComeOf productions.now passages.now.keys sources.new.items out.new.items) }
    ensures few { OnOk result (length out.new.items ≤ length out.old.items + 1) }
{
    if awaited(productions, one).is_some() {
        return Ok(());
    }
    match lift_whole(productions, passages, one) {
        Some(production) => {
            out.push(production)?;
            sources.push(one.place)?;
            Ok(())
        }
        None => Ok(()),
    }
}

/// Writes the productions of all begun productions that are read whole, and at which places of the
/// grammar they stand.
pub fn write_wholes(
    productions: &[Production],
    passages: &IndexSet<Passage>,
    out: &mut Vec<Production>,
    sources: &mut Vec<u64>,
    begun: &[Begun],
) -> Result<(), NoMemory>
    ensures writes { OnOk result
        (WritesAll {X = front.Front} (WholeMade productions.now passages.now.keys)
        (WholeHas productions.now passages.now.keys)
        begun.now [] [] out.old.items out.new.items) }
    ensures sources { OnOk result
        (AllComeOf productions.now passages.now.keys sources.old.items out.old.items
        → AllComeOf productions.now passages.now.keys sources.new.items out.new.items) }
    ensures few { OnOk result
        (length out.new.items ≤ length out.old.items + length begun.now) }
{
    for one in begun {
        write_whole(productions, passages, out, sources, *one)?;
    }
    Ok(())
}

/// What stands for an output, alone.
pub fn right_of(front: u64) -> Right
    ensures { result ≡ front_right front }
{
    if front == 0 {
        return Right::Empty;
    }
    Right::One(Symbol::Nt(Nt(front)))
}

/// What stands for an output up to its last symbol.
pub fn right_of_front(front: Front) -> Right
    ensures { result ≡ front_by front.before front.last }
{
    if front.before == 0 {
        return Right::One(front.last);
    }
    Right::Two(Symbol::Nt(Nt(front.before)), front.last)
}

/// What stands for a passage and then an output.
pub fn right_of_end(passage: Nt, front: u64) -> Right
    ensures { result ≡ end_by passage.0 front }
{
    if front == 0 {
        return Right::One(Symbol::Nt(passage));
    }
    Right::Two(Symbol::Nt(passage), Symbol::Nt(Nt(front)))
}
