//! The chart, and one step on it.

ghost use Rattle.std.specs.Prelude.{◌≡◌, ◌≤◌, ◌<◌, ◌++◌, ◌∷◌, [], ℕ, Contains, List, IfSome, OnOk, IfOk, Some, None, IsTrue, slice_get, length, vec_len, ◌+◌, ◌⊎◌};
ghost use Rattle.text_base.specs.declared.numbers.Nt as nt;
ghost use Rattle.cfg_grammar.specs.declared.symbol.Symbol as symbols;
ghost use Rattle.cfg_grammar.specs.declared.production.Production as plain;
ghost use Rattle.cfg_grammar.specs.Below.{AreBelow};
ghost use Rattle.numbered_sets.specs.Numbers.{Keeps};
ghost use Rattle.grammar_chart.specs.Rules.{awaited_of, passage_of};
ghost use Rattle.grammar_chart.specs.Charts.{Awaits, Leaves, Finishes};
ghost use Rattle.grammar_chart.specs.Visits.{AreWithin};
ghost use Rattle.grammar_chart.specs.Kept.{IsChartOf, GoesOn, IsCounted, IsTurn, AreProductionsOf};

use crate::keys::{Begun, Entry, Passage, Reading};
use crate::rules::{awaited, passage};
use crate::steps::{Visit, advance_all, advance_over, begin_all, begun_at, enter, leave, wait};
use crate::turns::Turn;
use cfg_grammar::{Production, Symbol};
use fst_core::Out;
use indexmap::IndexSet;
use numbered_sets::{Chains, count, number};
use std::alloc::Global;
use text_base::{ByteRange, NoMemory, Nt};

/// The productions that are begun, where the symbols lead, and how far the work on each has come.
pub struct Chart {
    /// The nonterminal whose texts are read.
    pub from: Nt,
    pub entries: IndexSet<Entry>,
    pub visits: Vec<Visit>,
    /// Each arises once, so they are not looked up.
    pub begun: Vec<Begun>,
    pub passages: IndexSet<Passage>,
    pub readings: Vec<Reading>,
    /// How many entries are opened.
    pub opened: usize,
    /// How many begun productions are taken up.
    pub taken: usize,
    /// How many passages are let through.
    pub left: usize,
}

// Written out, so that a chart that is let go is one call to the proofs above, and not a step for
// each part.
impl Drop for Chart {
    fn drop(self) {
        let Chart {
            from: _,
            entries: _,
            visits: _,
            begun: _,
            passages: _,
            readings: _,
            opened: _,
            taken: _,
            left: _,
        } = self;
    }
}

impl Chart {
    /// The passages; all else is let go.
    pub fn into_passages(self) -> IndexSet<Passage>
        ensures { result ≡ self.passages }
    {
        let Chart {
            from: _,
            entries: _,
            visits: _,
            begun: _,
            passages,
            readings: _,
            opened: _,
            taken: _,
            left: _,
        } = self;
        passages
    }
}

/// A begun production with a number waits for its next symbol.
fn await_symbol(
    alloc: Global,
    entries: &mut IndexSet<Entry>,
    visits: &mut Vec<Visit>,
    begun: &mut Vec<Begun>,
    one: Begun,
    number: u64,
    entry: Entry,
) -> Result<(), NoMemory>
    requires { vec_len visits.old ≡ length entries.old.keys }
    ensures { OnOk result
        (Awaits entries.old.keys entries.new.keys visits.old.items visits.new.items
        begun.old.items begun.new.items one number entry) }
{
    let at = enter(alloc, entries, visits, entry)?;
    advance_over(begun, one, visits[at].exits.as_slice())?;
    wait(visits, at, number)?;
    Ok(())
}

/// An entry is left by a passage.
fn leave_entry(
    alloc: Global,
    entries: &mut IndexSet<Entry>,
    visits: &mut Vec<Visit>,
    begun: &mut Vec<Begun>,
    one: Passage,
) -> Result<(), NoMemory>
    requires long { vec_len visits.old ≡ length entries.old.keys }
    requires within { AreWithin visits.old.items (length begun.old.items) }
    ensures { OnOk result
        (Leaves entries.old.keys entries.new.keys visits.old.items visits.new.items
        begun.old.items begun.new.items one) }
{
    let entry = Entry {
        symbol: one.symbol,
        state: one.from,
    };
    let at = enter(alloc, entries, visits, entry)?;
    advance_all(begun, visits[at].waiting.as_slice(), one.to)?;
    leave(visits, at, one.to)?;
    Ok(())
}

/// A begun production of which all is read leads where its left side does.
fn finish(
    productions: &[Production],
    passages: &mut IndexSet<Passage>,
    one: Begun,
) -> Result<(), NoMemory>
    ensures { OnOk result
        (Finishes passages.old.keys passages.new.keys (passage_of productions.now one)) }
{
    match passage(productions, one) {
        None => Ok(()),
        Some(whole) => {
            let (_, _) = number(passages, whole)?;
            Ok(())
        }
    }
}

/// The member with a number, if there is one.
fn passage_at(passages: &IndexSet<Passage>, number: usize) -> Option<Passage>
    ensures value { result ≡ slice_get passages.now.keys number }
    ensures small { IfSome result (λ f. number < 9223372036854775808) }
{
    if number >= count(passages) {
        return None;
    }
    passages.get_index(number).copied()
}

/// The member with a number, if there is one.
fn entry_at(entries: &IndexSet<Entry>, number: usize) -> Option<Entry>
    ensures value { result ≡ slice_get entries.now.keys number }
    ensures small { IfSome result (λ e. number < 9223372036854775808) }
{
    if number >= count(entries) {
        return None;
    }
    entries.get_index(number).copied()
}

/// A begun production waits for its next symbol.
fn take_up_waiting(
    alloc: Global,
    productions: &[Production],
    chart: &mut Chart,
    one: Begun,
    entry: Entry,
) -> Result<(), NoMemory>
    requires chart { IsChartOf productions.now chart.old }
    requires next { slice_get chart.old.begun.items chart.old.taken ≡ Some one }
    requires awaited { awaited_of productions.now one ≡ Some entry }
    ensures chart { OnOk result (IsChartOf productions.now chart.new) }
    ensures goes_on { OnOk result (GoesOn chart.old chart.new) }
    ensures step { OnOk result (IsCounted chart.old chart.new 0 1 0) }
{
    await_symbol(
        alloc,
        &mut chart.entries,
        &mut chart.visits,
        &mut chart.begun,
        one,
        chart.taken as u64,
        entry,
    )?;
    chart.taken += 1;
    Ok(())
}

/// A begun production of which all is read leads where its left side does.
fn take_up_whole(productions: &[Production], chart: &mut Chart, one: Begun) -> Result<(), NoMemory>
    requires chart { IsChartOf productions.now chart.old }
    requires next { slice_get chart.old.begun.items chart.old.taken ≡ Some one }
    requires whole { awaited_of productions.now one ≡ None }
    ensures chart { OnOk result (IsChartOf productions.now chart.new) }
    ensures goes_on { OnOk result (GoesOn chart.old chart.new) }
    ensures step { OnOk result (IsCounted chart.old chart.new 0 1 0) }
{
    finish(productions, &mut chart.passages, one)?;
    chart.taken += 1;
    Ok(())
}

/// Takes up a begun production.
fn take_up(
    alloc: Global,
    productions: &[Production],
    chart: &mut Chart,
    one: Begun,
) -> Result<(), NoMemory>
    requires chart { IsChartOf productions.now chart.old }
    requires next { slice_get chart.old.begun.items chart.old.taken ≡ Some one }
    ensures chart { OnOk result (IsChartOf productions.now chart.new) }
    ensures goes_on { OnOk result (GoesOn chart.old chart.new) }
    ensures step { OnOk result (IsCounted chart.old chart.new 0 1 0) }
{
    match awaited(productions, one) {
        Some(entry) => take_up_waiting(alloc, productions, chart, one, entry),
        None => take_up_whole(productions, chart, one),
    }
}

/// Lets a passage through: what waits for it goes on.
fn let_through(
    alloc: Global,
    productions: &[Production],
    chart: &mut Chart,
    one: Passage,
) -> Result<(), NoMemory>
    requires chart { IsChartOf productions.now chart.old }
    requires next { slice_get chart.old.passages.keys chart.old.left ≡ Some one }
    requires small { chart.old.left < 9223372036854775808 }
    ensures chart { OnOk result (IsChartOf productions.now chart.new) }
    ensures goes_on { OnOk result (GoesOn chart.old chart.new) }
    ensures step { OnOk result (IsCounted chart.old chart.new 0 0 1) }
{
    leave_entry(
        alloc,
        &mut chart.entries,
        &mut chart.visits,
        &mut chart.begun,
        one,
    )?;
    let _entries = count(&chart.entries);
    let _passages = count(&chart.passages);
    chart.left += 1;
    Ok(())
}

/// Begins the productions of an entry's nonterminal.
fn open_nonterminal(
    productions: &[Production],
    places: &Chains,
    chart: &mut Chart,
    entry: Entry,
    left: Nt,
) -> Result<(), NoMemory>
    requires chart { IsChartOf productions.now chart.old }
    requires places { AreProductionsOf productions.now places.now }
    requires below { left.0 < length places.now.last.items }
    requires next { slice_get chart.old.entries.keys chart.old.opened ≡ Some entry }
    requires small { chart.old.opened < 9223372036854775808 }
    requires symbol { entry.symbol ≡ symbols.Symbol.Nt left }
    ensures chart { OnOk result (IsChartOf productions.now chart.new) }
    ensures goes_on { OnOk result (GoesOn chart.old chart.new) }
    ensures step { OnOk result (IsCounted chart.old chart.new 1 0 0) }
{
    let _entries = count(&chart.entries);
    begin_all(&mut chart.begun, places, left.0, entry.state)?;
    chart.opened += 1;
    Ok(())
}

/// Notes what the machine puts out as it reads a part of a range, and where it is then.
pub fn read(chart: &mut Chart, reading: Reading) -> Result<(), NoMemory>
    requires entered { Contains chart.old.entries.keys
        (record { symbol = symbols.Symbol.Range reading.asked; state = reading.from }) }
    requires low { reading.asked.lo ≤ reading.range.lo }
    requires high { reading.range.hi ≤ reading.asked.hi }
    ensures chart { OnOk result
        ((ps : List plain.Production) → IsChartOf ps chart.old → IsChartOf ps chart.new) }
    ensures entries { OnOk result (chart.new.entries.keys ≡ chart.old.entries.keys) }
    ensures from { OnOk result (chart.new.from ≡ chart.old.from) }
    ensures begun { OnOk result (chart.new.begun.items ≡ chart.old.begun.items) }
    ensures passages { OnOk result (Keeps chart.old.passages.keys chart.new.passages.keys) }
    ensures passage { OnOk result
        (Contains chart.new.passages.keys
        (record {
          symbol = symbols.Symbol.Range reading.asked;
          from = reading.from;
          to = reading.to;
        })) }
    ensures readings { OnOk result
        (chart.new.readings.items ≡ chart.old.readings.items ++ reading ∷ []) }
    ensures step { OnOk result (IsCounted chart.old chart.new 0 0 0) }
{
    let passage = Passage {
        symbol: Symbol::Range(reading.asked),
        from: reading.from,
        to: reading.to,
    };
    let (_, _) = number(&mut chart.passages, passage)?;
    chart.readings.push(reading)?;
    Ok(())
}

/// An entry of no nonterminal has no productions to be begun.
pub fn pass(chart: &mut Chart, entry: Entry)
    requires next { slice_get chart.old.entries.keys chart.old.opened ≡ Some entry }
    requires small { chart.old.opened < 9223372036854775808 }
    requires symbol { (a : nt.Nt) → entry.symbol ≡ symbols.Symbol.Nt a → ⊥ }
    ensures chart { (ps : List plain.Production) → IsChartOf ps chart.old → IsChartOf ps chart.new }
    ensures goes_on { GoesOn chart.old chart.new }
    ensures step { IsCounted chart.old chart.new 1 0 0 }
{
    chart.opened += 1;
}

/// Takes the next step, or says what the machine is to be asked.
pub fn turn(
    alloc: Global,
    productions: &[Production],
    places: &Chains,
    chart: &mut Chart,
) -> Result<Turn, NoMemory>
    requires chart { IsChartOf productions.now chart.old }
    requires places { AreProductionsOf productions.now places.now }
    requires below { AreBelow (length places.now.last.items) productions.now }
    requires from { chart.old.from.0 < length places.now.last.items }
    ensures turn { IfOk result (λ t. IsTurn productions.now chart.old chart.new t) }
{
    if let Some(one) = begun_at(chart.begun.as_slice(), chart.taken) {
        take_up(alloc, productions, chart, one)?;
        return Ok(Turn::Went);
    }
    if let Some(one) = passage_at(&chart.passages, chart.left) {
        let_through(alloc, productions, chart, one)?;
        return Ok(Turn::Went);
    }
    let Some(entry) = entry_at(&chart.entries, chart.opened) else {
        return Ok(Turn::Done);
    };
    match entry.symbol {
        Symbol::Nt(left) => {
            open_nonterminal(productions, places, chart, entry, left)?;
            Ok(Turn::Went)
        }
        Symbol::Range(range) => Ok(Turn::Asks(range, entry.state)),
        Symbol::Token(_) => {
            pass(chart, entry);
            Ok(Turn::Went)
        }
    }
}

/// Lets go of the entries and what is kept of them, which only the filling of the chart needs.
pub fn let_go(alloc: Global, chart: &mut Chart)
    ensures from { chart.new.from ≡ chart.old.from }
    ensures begun { chart.new.begun.items ≡ chart.old.begun.items }
    ensures passages { chart.new.passages.keys ≡ chart.old.passages.keys }
    ensures readings { chart.new.readings.items ≡ chart.old.readings.items }
    ensures entries { chart.new.entries.keys ≡ [] }
    ensures visits { chart.new.visits.items ≡ [] }
{
    chart.entries = IndexSet::new(alloc);
    chart.visits = Vec::new(alloc);
}

/// A chart in which only the start is entered, in the state 0.
pub fn begin(alloc: Global, from: Nt) -> Result<Chart, NoMemory>
    ensures chart { IfOk result (λ c. (ps : List plain.Production) → IsChartOf ps c) }
    ensures from { IfOk result (λ c. c.from ≡ from) }
    ensures readings { IfOk result (λ c. c.readings.items ≡ []) }
    ensures opened { IfOk result (λ c. c.opened ≡ 0) }
{
    let mut entries = IndexSet::new(alloc);
    let mut visits = Vec::new(alloc);
    enter(
        alloc,
        &mut entries,
        &mut visits,
        Entry {
            symbol: Symbol::Nt(from),
            state: 0,
        },
    )?;
    Ok(Chart {
        from,
        entries,
        visits,
        begun: Vec::new(alloc),
        passages: IndexSet::new(alloc),
        readings: Vec::new(alloc),
        opened: 0,
        taken: 0,
        left: 0,
    })
}
