//! Images of grammars under machines.

ghost use Rattle.std.specs.Prelude.{◌≡◌, ◌<◌, ◌↔◌, List, All, Some, map, slice_get, length, IfOk, IfErr};
ghost use Rattle.text_base.specs.declared.letter.Letter.{Letter};
ghost use Rattle.cfg_grammar.specs.Below.{AreBelow};
ghost use Rattle.cfg_grammar.specs.Derives.{Derives};
ghost use Rattle.cfg_grammar.specs.declared.symbol.Symbol as symbols;
ghost use Rattle.fst_core.specs.Outputs.{Outputs};
ghost use Rattle.fst_core.specs.Weight.{IsSmall};
ghost use Rattle.grammar_chart.specs.Kept.{AreProductionsOf, IsDone};
ghost use Rattle.grammar_image.specs.Work.{IsWorked};
ghost use Rattle.chart_grammar.specs.Sources.{ArePutOut, AreSources};
ghost use Rattle.grammar_image.specs.Refusals.{IsCause};
ghost use Rattle.grammar_image.specs.Numbered.{NumberedEnds, NumberedSteps};

use crate::ends::lasts_of;
use crate::filling::fill;
use crate::imaged::Imaged;
use crate::refusal::ImageRefusal;
use cfg_grammar::{Grammar, Production};
use chart_grammar::{SourcedGrammar, grammar_of};
use fst_core::Machine;
use grammar_chart::{Chart, begin, let_go};
use indexmap::IndexSet;
use numbered_sets::{Chains, chains_of, count, number};
use std::alloc::Global;
use text_base::{NoMemory, Nt};

/// The nonterminals on the left, in turn.
fn lefts(alloc: Global, productions: &[Production]) -> Result<Vec<u64>, NoMemory>
    ensures { IfOk result (λ v. v.items ≡ map (λ p. p.left.0) productions.now) }
{
    let lefts = productions.iter().map(|p| p.left.0).collect(alloc)?;
    Ok(lefts)
}

/// For each nonterminal, the places of its productions.
fn places_by_left(alloc: Global, g: &Grammar) -> Result<Chains, NoMemory>
    ensures len { IfOk result (λ chains. length chains.last.items ≡ g.now.count) }
    ensures places { IfOk result (AreProductionsOf g.now.productions.items) }
{
    let lefts = lefts(alloc, g.productions.as_slice())?;
    let places = chains_of(alloc, g.count, lefts.as_slice())?;
    Ok(places)
}

/// The states of a machine with only the first one numbered.
fn first_state<M: Machine>(alloc: Global, machine: &M) -> Result<IndexSet<M::State>, NoMemory>
    ensures first { IfOk result (λ states. slice_get states.keys 0 ≡ Some (M.first machine.now)) }
    ensures given { IfOk result (λ states. All (M.gives machine.now) states.keys) }
{
    let mut states = IndexSet::new(alloc);
    let first = machine.start(alloc)?;
    let (_, _) = number(&mut states, first)?;
    Ok(states)
}

/// The image of a chart that is filled. What only the filling needs is let go first, so that the
/// productions take its room, and what only the writing needs before the passages are handed out.
fn finish<M: Machine>(
    alloc: Global,
    productions: &[Production],
    machine: &M,
    states: IndexSet<M::State>,
    mut chart: Chart,
) -> Result<Imaged<M::State>, NoMemory>
    requires worked { IsWorked (M.steps machine.now) (M.gives machine.now) (M.first machine.now)
        productions.now states.keys chart }
    requires done { IsDone chart }
    ensures sentences { IfOk result
        (λ image. (w : List Letter)
        → Derives image.grammar.productions.items (symbols.Symbol.Nt image.grammar.start) w
        ↔ Outputs productions.now (symbols.Symbol.Nt chart.from) (M.first machine.now)
        (M.steps machine.now) (M.ends machine.now) w) }
    ensures small { IfOk result
        (λ image. IsSmall productions.now (M.steps machine.now) (M.ends machine.now) chart.from
        (M.first machine.now) image.grammar.count (length image.grammar.productions.items)) }
    ensures starts { IfOk result (λ image. image.grammar.start ≡ record { 0 = 0 }) }
    ensures sources { IfOk result
        (λ image. AreSources productions.now chart.from image.passages.keys image.sources.items
        image.grammar.productions.items) }
    ensures put_out { IfOk result
        (λ image. ArePutOut chart.from image.passages.keys image.grammar.productions.items
        (NumberedSteps (M.steps machine.now) image.states.keys)
        (NumberedEnds (M.ends machine.now) image.states.keys)) }
    ensures begins { IfOk result
        (λ image. slice_get image.states.keys 0 ≡ Some (M.first machine.now)) }
{
    let _states = count(&states);
    let _entries = count(&chart.entries);
    let _passages = count(&chart.passages);
    let_go(alloc, &mut chart);
    let lasts = lasts_of(alloc, machine, &states)?;
    let SourcedGrammar { grammar, sources } = grammar_of(
        alloc,
        productions,
        &chart,
        lasts.as_slice(),
    )?;
    Ok(Imaged {
        grammar,
        sources,
        passages: chart.into_passages(),
        states,
    })
}

/// The image over an index of the productions, with what it comes of.
fn imaged_over<M: Machine>(
    alloc: Global,
    productions: &[Production],
    places: &Chains,
    from: Nt,
    machine: &M,
    limit: u64,
) -> Result<Imaged<M::State>, ImageRefusal>
    requires places { AreProductionsOf productions.now places.now }
    requires below { AreBelow (length places.now.last.items) productions.now }
    requires from { from.0 < length places.now.last.items }
    ensures sentences { IfOk result
        (λ image. (w : List Letter)
        → Derives image.grammar.productions.items (symbols.Symbol.Nt image.grammar.start) w
        ↔ Outputs productions.now (symbols.Symbol.Nt from) (M.first machine.now)
        (M.steps machine.now) (M.ends machine.now) w) }
    ensures small { IfOk result
        (λ image. IsSmall productions.now (M.steps machine.now) (M.ends machine.now) from
        (M.first machine.now) image.grammar.count (length image.grammar.productions.items)) }
    ensures starts { IfOk result (λ image. image.grammar.start ≡ record { 0 = 0 }) }
    ensures sources { IfOk result
        (λ image. AreSources productions.now from image.passages.keys image.sources.items
        image.grammar.productions.items) }
    ensures put_out { IfOk result
        (λ image. ArePutOut from image.passages.keys image.grammar.productions.items
        (NumberedSteps (M.steps machine.now) image.states.keys)
        (NumberedEnds (M.ends machine.now) image.states.keys)) }
    ensures begins { IfOk result
        (λ image. slice_get image.states.keys 0 ≡ Some (M.first machine.now)) }
    ensures cause { IfErr result
        (IsCause productions.now (M.steps machine.now) from (M.first machine.now) limit) }
{
    let mut states = first_state(alloc, machine)?;
    let mut chart = begin(alloc, from)?;
    match fill(
        alloc,
        productions,
        places,
        machine,
        &mut states,
        &mut chart,
        limit,
    ) {
        Ok(()) => {}
        Err(refusal) => return Err(refusal),
    }
    match finish(alloc, productions, machine, states, chart) {
        Ok(image) => Ok(image),
        Err(_) => Err(ImageRefusal::Memory),
    }
}

/// A grammar whose sentences are exactly what the machine may put out over the texts of bytes that
/// the nonterminal derives by these productions, whose places are listed for each nonterminal.
/// `Large` comes only where there are more items than the limit, so many that it says. Time and
/// memory are within the items that are made and what the machine answers; productions that no item
/// comes to cost nothing. What the image comes of is let go.
pub fn image_over<M: Machine>(
    alloc: Global,
    productions: &[Production],
    places: &Chains,
    from: Nt,
    machine: &M,
    limit: u64,
) -> Result<Grammar, ImageRefusal>
    requires places { AreProductionsOf productions.now places.now }
    requires below { AreBelow (length places.now.last.items) productions.now }
    requires from { from.0 < length places.now.last.items }
    ensures sentences { IfOk result
        (λ image. (w : List Letter)
        → Derives image.productions.items (symbols.Symbol.Nt image.start) w
        ↔ Outputs productions.now (symbols.Symbol.Nt from) (M.first machine.now)
        (M.steps machine.now) (M.ends machine.now) w) }
    ensures small { IfOk result
        (λ image. IsSmall productions.now (M.steps machine.now) (M.ends machine.now) from
        (M.first machine.now) image.count (length image.productions.items)) }
    ensures cause { IfErr result
        (IsCause productions.now (M.steps machine.now) from (M.first machine.now) limit) }
{
    match imaged_over(alloc, productions, places, from, machine, limit) {
        Ok(image) => Ok(image.into_grammar()),
        Err(refusal) => Err(refusal),
    }
}

/// A grammar whose sentences are exactly what the machine may put out over the texts of bytes that
/// the nonterminal derives, with what its productions come of. `Large` comes only where there are
/// more items than the limit, so many that it says. Time and memory are within the grammar, the
/// items that are made and what the machine answers.
pub fn image<M: Machine>(
    alloc: Global,
    g: &Grammar,
    from: Nt,
    machine: &M,
    limit: u64,
) -> Result<Imaged<M::State>, ImageRefusal>
    requires { from.0 < g.now.count }
    ensures sentences { IfOk result
        (λ image. (w : List Letter)
        → Derives image.grammar.productions.items (symbols.Symbol.Nt image.grammar.start) w
        ↔ Outputs g.now.productions.items (symbols.Symbol.Nt from) (M.first machine.now)
        (M.steps machine.now) (M.ends machine.now) w) }
    ensures small { IfOk result
        (λ image. IsSmall g.now.productions.items (M.steps machine.now) (M.ends machine.now) from
        (M.first machine.now) image.grammar.count (length image.grammar.productions.items)) }
    ensures starts { IfOk result (λ image. image.grammar.start ≡ record { 0 = 0 }) }
    ensures sources { IfOk result
        (λ image. AreSources g.now.productions.items from image.passages.keys image.sources.items
        image.grammar.productions.items) }
    ensures put_out { IfOk result
        (λ image. ArePutOut from image.passages.keys image.grammar.productions.items
        (NumberedSteps (M.steps machine.now) image.states.keys)
        (NumberedEnds (M.ends machine.now) image.states.keys)) }
    ensures begins { IfOk result
        (λ image. slice_get image.states.keys 0 ≡ Some (M.first machine.now)) }
    ensures cause { IfErr result
        (IsCause g.now.productions.items (M.steps machine.now) from (M.first machine.now) limit) }
{
    let productions = g.productions.as_slice();
    let places = places_by_left(alloc, g)?;
    imaged_over(alloc, productions, &places, from, machine, limit)
}
