//! The work on an image, turn by turn.

ghost use Rattle.std.specs.Prelude.{◌≡◌, ◌<◌, IfOk, OnOk, Some, slice_get, true, length};
ghost use Rattle.cfg_grammar.specs.declared.symbol.Symbol as symbols;
ghost use Rattle.cfg_grammar.specs.Below.{AreBelow};
ghost use Rattle.grammar_chart.specs.Kept.{AreProductionsOf, IsDone};
ghost use Rattle.grammar_image.specs.Work.{IsWorked};

use crate::ask::ask;
use cfg_grammar::{Production, Symbol};
use fst_core::Machine;
use grammar_chart::{Chart, Entry, Turn, pass, turn};
use indexmap::IndexSet;
use numbered_sets::Chains;
use std::alloc::Global;
use text_base::{ByteRange, NoMemory};

/// Asks the machine by the range of the next entry, and opens that entry.
fn answer<M: Machine>(
    alloc: Global,
    productions: &[Production],
    machine: &M,
    states: &mut IndexSet<M::State>,
    chart: &mut Chart,
    range: ByteRange,
    state: u64,
) -> Result<(), NoMemory>
    requires worked { IsWorked (M.steps machine.now) (M.gives machine.now) (M.first machine.now)
        productions.now states.old.keys chart.old }
    requires next { slice_get chart.old.entries.keys chart.old.opened
        ≡ Some (record { symbol = symbols.Symbol.Range range; state = state }) }
    requires small { chart.old.opened < 9223372036854775808 }
    ensures worked { OnOk result
        (IsWorked (M.steps machine.now) (M.gives machine.now) (M.first machine.now) productions.now
        states.new.keys chart.new) }
    ensures from { OnOk result (chart.new.from ≡ chart.old.from) }
{
    ask(alloc, machine, states, chart, range, state)?;
    pass(
        chart,
        Entry {
            symbol: Symbol::Range(range),
            state,
        },
    );
    Ok(())
}

/// Takes one turn, and says whether all is done.
pub fn work<M: Machine>(
    alloc: Global,
    productions: &[Production],
    places: &Chains,
    machine: &M,
    states: &mut IndexSet<M::State>,
    chart: &mut Chart,
) -> Result<bool, NoMemory>
    requires worked { IsWorked (M.steps machine.now) (M.gives machine.now) (M.first machine.now)
        productions.now states.old.keys chart.old }
    requires places { AreProductionsOf productions.now places.now }
    requires below { AreBelow (length places.now.last.items) productions.now }
    requires from { chart.old.from.0 < length places.now.last.items }
    ensures worked { OnOk result
        (IsWorked (M.steps machine.now) (M.gives machine.now) (M.first machine.now) productions.now
        states.new.keys chart.new) }
    ensures from { OnOk result (chart.new.from ≡ chart.old.from) }
    ensures done { IfOk result (λ done. done ≡ true → IsDone chart.new) }
{
    match turn(alloc, productions, places, chart)? {
        Turn::Done => Ok(true),
        Turn::Went => Ok(false),
        Turn::Asks(range, state) => {
            answer(alloc, productions, machine, states, chart, range, state)?;
            Ok(false)
        }
    }
}
