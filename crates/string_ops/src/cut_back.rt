//! The machine of `substr` from a place that is counted from the end.

ghost use Rattle.std.specs.Prelude.{◌≡◌, ℕ, ◌+◌, ◌^◌, ◌<◌, ◌≤◌, ◌++◌, suc, negsuc, [], ◌∷◌, Some, IfOk, OnOk, slice_get, if◌then◌else◌, ◌==◌};
ghost use Rattle.string_functions.specs.Cut.{part_of};
ghost use Rattle.op_system.specs.Size.{size_of_length};
ghost use Rattle.fst_core.specs.Choices.{stops};
ghost use Rattle.string_ops.specs.Listed.{IsListed, IsMachine};
ghost use Rattle.string_ops.specs.Plans.{AddsTurn, AddsState};
ghost use Rattle.string_ops.specs.CutBack.{step_in, state_of, phase_of, number_of, states_of, kept_of_last, is_counted, dropped_of, last_choices, drop_choices, back_choices, back_ends, back_row, back_last, back_rows, back_lasts};

use crate::factor::add_step;
use crate::piece::stop_silently;
use fst_core::{Out, Table};
use std::alloc::Global;
use text_base::NoMemory;

/// A cut that begins `last` bytes before the end of the text, and the states of its machine.
#[derive(Clone, Copy, Debug)]
pub struct CutBack {
    pub last: u64,
    pub len: Option<i64>,
    pub states: u64,
    ghost some: { 0 < last },
    ghost exact: { states ≡ states_of last len },
    ghost fits: { states < 2 ^ 63 },
}

/// A step by every byte: where it goes, and whether the byte is put out.
#[derive(Clone, Copy, Debug)]
struct Step {
    to: u64,
    copied: bool,
}

/// The phase of a state.
fn phase(cut: CutBack, state: u64) -> u64
    ensures { result ≡ phase_of cut.last cut.len state }
{
    if state == 0 {
        0
    } else if state == 1 {
        1
    } else if state < 2 + cut.last {
        2
    } else if state < 2 + cut.last + cut.last {
        if counted(cut.len) { 4 } else { 3 }
    } else {
        5
    }
}

/// The number of a state in its phase.
fn number(cut: CutBack, state: u64) -> u64
    ensures value { result ≡ number_of cut.last state }
    ensures within { result ≤ state }
{
    if state < 2 + cut.last {
        state.saturating_sub(2)
    } else if state < 2 + cut.last + cut.last {
        state - (2 + cut.last)
    } else {
        state - (2 + cut.last + cut.last)
    }
}

/// How many of the last `k` bytes are kept.
fn kept(cut: CutBack, k: u64) -> u64
    ensures { result ≡ kept_of_last cut.last cut.len k }
{
    match cut.len {
        None => k,
        Some(len) => {
            if len >= 0 {
                (len as u64).saturating_sub(cut.last.saturating_sub(k))
            } else {
                k.saturating_sub(len.unsigned_abs())
            }
        }
    }
}

/// Whether the kept bytes are counted from where they begin.
fn counted(len: Option<i64>) -> bool
    ensures { result ≡ is_counted len }
{
    match len {
        None => false,
        Some(len) => len >= 0,
    }
}

/// How many bytes at the end are dropped.
fn dropped(len: Option<i64>) -> u64
    ensures { result ≡ dropped_of len }
{
    match len {
        None => 0,
        Some(len) => { if len >= 0 { 0 } else { len.unsigned_abs() } }
    }
}

/// The state of a phase and a number.
fn state_at(cut: CutBack, phase: u64, k: u64) -> u64
    requires { k ≤ cut.states }
    ensures { result ≡ state_of cut.last phase k }
{
    match phase {
        0 => 0,
        1 => 1,
        2 => 2 + k,
        5 => 2 + cut.last + cut.last + k,
        _ => 2 + cut.last + k,
    }
}

/// A step to a state, with the byte that is read or with nothing.
fn go(to: u64, copied: bool) -> Option<Step>
    ensures { step_in result ≡ Some (to, if copied then Out.Same ∷ [] else []) }
{
    Some(Step { to, copied })
}

/// The choices of the first byte.
fn at_front(cut: CutBack, turn: usize) -> Option<Step>
    ensures { step_in result ≡ slice_get (back_choices cut.last cut.len 0 0) turn }
{
    let counts = counted(cut.len);
    let drops = dropped(cut.len);
    if turn == 0 {
        go(state_at(cut, 1, 0), false)
    } else if turn == 1 && counts {
        go(state_at(cut, 4, cut.last - 1), kept(cut, cut.last) > 0)
    } else if turn == 1 {
        go(state_at(cut, 3, cut.last - 1), true)
    } else if turn == 2 && !counts && drops > 0 {
        go(state_at(cut, 5, drops - 1), false)
    } else {
        None
    }
}

/// The choices where some bytes are passed over.
fn at_pass(cut: CutBack, turn: usize) -> Option<Step>
    ensures { step_in result ≡ slice_get (back_choices cut.last cut.len 1 0) turn }
{
    if turn == 0 {
        go(state_at(cut, 1, 0), false)
    } else if turn == 1 {
        go(state_at(cut, 2, cut.last - 1), kept(cut, cut.last) > 0)
    } else {
        None
    }
}

/// The choice among the last bytes, and where they are counted.
fn at_last(cut: CutBack, phase: u64, k: u64, turn: usize) -> Option<Step>
    requires phase { phase < 5 }
    requires number { k ≤ cut.states }
    ensures { step_in result ≡ slice_get (last_choices cut.last cut.len phase k) turn }
{
    if turn == 0 && k > 0 && k < cut.last {
        go(state_at(cut, phase, k - 1), kept(cut, k) > 0)
    } else {
        None
    }
}

/// The choices in a short text of which all but some bytes are kept.
fn at_short(cut: CutBack, k: u64, turn: usize) -> Option<Step>
    requires { k ≤ cut.states }
    ensures { step_in result ≡ slice_get (back_choices cut.last cut.len 3 k) turn }
{
    let drops = dropped(cut.len);
    if k == 0 || k >= cut.last {
        None
    } else if turn == 0 {
        go(state_at(cut, 3, k - 1), true)
    } else if turn == 1 && drops > 0 && drops <= k {
        go(state_at(cut, 2, drops - 1), false)
    } else {
        None
    }
}

/// The choice where at most `k` bytes are dropped.
fn at_drop(cut: CutBack, k: u64, turn: usize) -> Option<Step>
    requires { k ≤ cut.states }
    ensures { step_in result ≡ slice_get (drop_choices cut.last k) turn }
{
    if turn == 0 && k > 0 {
        go(state_at(cut, 5, k - 1), false)
    } else {
        None
    }
}

/// The choice of a phase.
fn chosen(cut: CutBack, phase: u64, k: u64, turn: usize) -> Option<Step>
    requires { k ≤ cut.states }
    ensures { step_in result ≡ slice_get (back_choices cut.last cut.len phase k) turn }
{
    match phase {
        0 => at_front(cut, turn),
        1 => at_pass(cut, turn),
        2 => at_last(cut, 2, k, turn),
        3 => at_short(cut, k, turn),
        4 => at_last(cut, 4, k, turn),
        _ => at_drop(cut, k, turn),
    }
}

/// Whether the text may end in a phase.
fn may_end(cut: CutBack, phase: u64, k: u64) -> bool
    ensures { (if result then [] ∷ [] else []) ≡ back_ends cut.last cut.len phase k }
{
    match phase {
        0 => true,
        1 => false,
        2 => k == 0,
        3 => dropped(cut.len) == 0 && k < cut.last && !counted(cut.len),
        4 => k < cut.last && counted(cut.len),
        _ => true,
    }
}

/// Adds what a state does at one turn, by every byte.
fn add_turn(
    alloc: Global,
    table: &mut Table,
    cut: CutBack,
    state: u64,
    turn: usize,
) -> Result<(), NoMemory>
    requires state { state < cut.states }
    requires all { table.old.states ≡ cut.states }
    ensures moves { OnOk result (AddsTurn table.old.moves.items table.new.moves.items state
        (λ byte. slice_get (back_row cut.last cut.len state byte) turn)) }
    ensures states { table.new.states ≡ table.old.states }
    ensures start { table.new.start ≡ table.old.start }
    ensures ends { table.new.ends.items ≡ table.old.ends.items }
{
    let choice = chosen(cut, phase(cut, state), number(cut, state), turn);
    let Some(step) = choice else {
        return Ok(());
    };
    add_step(alloc, table, state, step.to, step.copied)?;
    Ok(())
}

/// Lets the text end in a state, if it may.
fn add_last(alloc: Global, table: &mut Table, cut: CutBack, state: u64) -> Result<(), NoMemory>
    requires state { state < cut.states }
    requires all { table.old.states ≡ cut.states }
    ensures ends { OnOk result ((s : ℕ) → stops table.new.ends.items s
        ≡ stops table.old.ends.items s
        ++ (if state == s then back_last cut.last cut.len state else [])) }
    ensures states { table.new.states ≡ table.old.states }
    ensures start { table.new.start ≡ table.old.start }
    ensures moves { table.new.moves.items ≡ table.old.moves.items }
{
    let ends = may_end(cut, phase(cut, state), number(cut, state));
    if ends {
        stop_silently(alloc, table, state)?;
        return Ok(());
    }
    Ok(())
}

/// Adds all that a state does.
fn add_state(alloc: Global, table: &mut Table, cut: CutBack, state: u64) -> Result<(), NoMemory>
    requires state { state < cut.states }
    requires all { table.old.states ≡ cut.states }
    ensures { OnOk result
        (AddsState table.old table.new state (back_row cut.last cut.len state)
        (back_last cut.last cut.len state)) }
{
    add_turn(alloc, table, cut, state, 0)?;
    add_turn(alloc, table, cut, state, 1)?;
    add_turn(alloc, table, cut, state, 2)?;
    add_last(alloc, table, cut, state)?;
    Ok(())
}

/// The table of a cut from the end, state by state.
fn back_table(alloc: Global, cut: CutBack) -> Result<Table, NoMemory>
    ensures { IfOk result
        (λ table. IsListed table cut.states (back_rows cut.states cut.last cut.len)
        (back_lasts cut.states cut.last cut.len)) }
{
    let mut table = Table::new(alloc, cut.states, 0);
    for state in 0..cut.states {
        add_state(alloc, &mut table, cut, state)?;
    }
    Ok(table)
}

/// The machine of `Op::Cut` from `below + 1` bytes before the end.
pub(crate) fn back_machine(alloc: Global, below: u64, len: Option<i64>) -> Result<Table, NoMemory>
    requires last { below < 2 ^ 60 }
    requires drops { dropped_of len ≤ 2 ^ 60 }
    ensures { IfOk result (λ table. IsMachine table (below + 1 + size_of_length len)
        (λ input output. output ≡ part_of input (negsuc below) len)) }
{
    let last = below + 1;
    let drops = dropped(len);
    let states = 2 + last + last + drops;
    let table = back_table(alloc, CutBack { last, len, states })?;
    Ok(table)
}
