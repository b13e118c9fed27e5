//! Filling the chart, within a limit.

ghost use Rattle.std.specs.Prelude.{◌≡◌, ◌<◌, IfErr, OnOk, length};
ghost use Rattle.cfg_grammar.specs.Below.{AreBelow};
ghost use Rattle.grammar_chart.specs.Kept.{AreProductionsOf, IsDone};
ghost use Rattle.grammar_image.specs.Work.{IsWorked};
ghost use Rattle.grammar_image.specs.Refusals.{IsCause};

use crate::refusal::ImageRefusal;
use crate::work::work;
use cfg_grammar::Production;
use fst_core::Machine;
use grammar_chart::Chart;
use indexmap::IndexSet;
use numbered_sets::{Chains, count};
use std::alloc::Global;

/// The refusal where there are more items than the limit allows.
fn within_limit<M: Machine>(
    productions: &[Production],
    machine: &M,
    states: &IndexSet<M::State>,
    chart: &Chart,
    limit: u64,
) -> Result<(), ImageRefusal>
    requires { IsWorked (M.steps machine.now) (M.gives machine.now) (M.first machine.now)
        productions.now states.now.keys chart.now }
    ensures { IfErr result
        (IsCause productions.now (M.steps machine.now) chart.now.from (M.first machine.now) limit) }
{
    let _states = count(states);
    let items = chart.begun.len() as u64;
    if items > limit {
        return Err(ImageRefusal::Large { items });
    }
    Ok(())
}

/// Fills the chart. Each turn takes up one more of its members, all of which are held in memory, so
/// there are fewer than 2^64 turns.
pub fn fill<M: Machine>(
    alloc: Global,
    productions: &[Production],
    places: &Chains,
    machine: &M,
    states: &mut IndexSet<M::State>,
    chart: &mut Chart,
    limit: u64,
) -> Result<(), ImageRefusal>
    requires worked { IsWorked (M.steps machine.now) (M.gives machine.now) (M.first machine.now)
        productions.now states.old.keys chart.old }
    requires places { AreProductionsOf productions.now places.now }
    requires below { AreBelow (length places.now.last.items) productions.now }
    requires from { chart.old.from.0 < length places.now.last.items }
    ensures worked { OnOk result
        (IsWorked (M.steps machine.now) (M.gives machine.now) (M.first machine.now) productions.now
        states.new.keys chart.new) }
    ensures from { OnOk result (chart.new.from ≡ chart.old.from) }
    ensures done { OnOk result (IsDone chart.new) }
    ensures cause { IfErr result
        (IsCause productions.now (M.steps machine.now) chart.old.from (M.first machine.now) limit) }
{
    for _turn in 0..u64::MAX {
        if work(alloc, productions, places, machine, states, chart)? {
            return Ok(());
        }
        within_limit(productions, machine, states, chart, limit)?;
    }
    Err(ImageRefusal::Memory)
}
