//! Tables of machines that are written down state by state.

ghost use Rattle.std.specs.Prelude.{◌≡◌, ℕ, ◌<◌, ◌≤◌, ◌+◌, ◌-◌, List, [], ◌∷◌, ◌++◌, true, length, take, slice_get, slice_index, vec_len, All, IfOk, OnOk, IsTrue, nat_lt, option_map, Some, IfSome, ◌==◌, if◌then◌else◌};
ghost use Rattle.std.specs.List.{list_all};
ghost use Rattle.fst_core.specs.declared.out.Out.{Out};
ghost use Rattle.fst_core.specs.Fits.{is_fixed};
ghost use Rattle.string_ops.specs.Listed.{Rows, Lasts, IsListed};
ghost use Rattle.string_ops.specs.Plans.{IsRow, Extends, Names, LeadBelow, AddsTurn, AddsState, choice_in};
ghost use Rattle.fst_core.specs.Choices.{stops};

use fst_core::{Action, Out, Table, TableEnd};
use std::alloc::Global;
use text_base::NoMemory;

/// A machine that is written down state by state, with at most three choices for a byte and at most
/// one output at the end. It begins in the state 0.
pub trait Plan {
    /// How many states there are.
    ghost states: { Self → ℕ };

    /// Where a state goes by a byte and what is put out, in turn.
    ghost rows: { Self → Rows };

    /// What may be put out at the end.
    ghost lasts: { Self → Lasts };

    ghost no_rows: { (plan : Self) (s byte : ℕ) → states plan ≤ s → rows plan s byte ≡ [] };

    ghost no_lasts: { (plan : Self) (s : ℕ) → states plan ≤ s → lasts plan s ≡ [] };

    ghost some: { (plan : Self) → 0 < states plan };

    ghost three: { (plan : Self) (s byte : ℕ) → length (rows plan s byte) ≤ 3 };

    ghost within: { (plan : Self) (s byte : ℕ) → s < states plan → byte < 256 →
        list_all (λ choice. nat_lt choice.0 (states plan)) (rows plan s byte) ≡ true };

    ghost one: { (plan : Self) (s : ℕ) → length (lasts plan s) ≤ 1 };

    ghost fixed: { (plan : Self) (s : ℕ) → list_all (λ out. list_all is_fixed out) (lasts plan s) ≡ true };

    /// How many states there are.
    fn states(&self) -> u64
        ensures { result ≡ states self.now };

    /// The choice of a state for a byte that comes at this turn.
    fn choice(
        &self,
        alloc: Global,
        state: u64,
        byte: u8,
        turn: usize,
    ) -> Result<Option<Action>, NoMemory>
        requires { state < states self.now }
        ensures { IfOk result
            (λ action. choice_in action ≡ slice_get (rows self.now state byte) turn) };

    /// What a state may put out at the end.
    fn last(&self, alloc: Global, state: u64) -> Result<Option<Vec<Out>>, NoMemory>
        requires { state < states self.now }
        ensures { IfOk result
            (λ out. option_map (λ o. o.items) out ≡ slice_get (lasts self.now state) 0) };
}

/// What a state does at one turn: for each byte a place in the list of actions, past which there
/// is none.
#[derive(Drop)]
struct Row {
    named: Vec<usize>,
    actions: Vec<Action>,
}

/// Whether two actions are the same.
fn is_same(a: &Action, b: &Action) -> bool
    ensures to { IsTrue result → a.now.to ≡ b.now.to }
    ensures out { IsTrue result → a.now.out.items ≡ b.now.out.items }
{
    a.to == b.to && are_same(a.out.as_slice(), b.out.as_slice())
}

/// Whether two lists of what is put out are the same.
fn are_same(a: &[Out], b: &[Out]) -> bool
    ensures { IsTrue result → a.now ≡ b.now }
{
    if a.len() != b.len() {
        return false;
    }
    for place in 0..a.len() {
        if !is_same_out(a[place], b[place]) {
            return false;
        }
    }
    true
}

/// Whether what is put out is the same, and no page token.
fn is_same_out(a: Out, b: Out) -> bool
    ensures { IsTrue result → a ≡ b }
{
    match (a, b) {
        (Out::Same, Out::Same) => true,
        (Out::Shift(x), Out::Shift(y)) => x == y,
        (Out::Byte(x), Out::Byte(y)) => x == y,
        _ => false,
    }
}

/// The place of an action in the list, to which it is added unless the last one is the same.
fn place_of(actions: &mut Vec<Action>, action: Action) -> Result<usize, NoMemory>
    ensures extends { OnOk result (Extends actions.old.items actions.new.items) }
    ensures placed { IfOk result
        (λ place. choice_in (slice_get actions.new.items place)
        ≡ Some (action.to, action.out.items)) }
    ensures below { OnOk result ((states : ℕ) → action.to < states →
        LeadBelow states actions.old.items → LeadBelow states actions.new.items) }
{
    if let Some(last) = actions.last() {
        if is_same(last, &action) {
            return Ok(actions.len() - 1);
        }
    }
    let place = actions.len();
    actions.push(action)?;
    Ok(place)
}

/// The place of the action that is chosen for a byte, which is added unless the last one is the
/// same; 256 where there is none.
fn name_choice(actions: &mut Vec<Action>, choice: Option<Action>) -> Result<usize, NoMemory>
    ensures extends { OnOk result (Extends actions.old.items actions.new.items) }
    ensures named { IfOk result (λ place. Names actions.new.items place (choice_in choice)) }
    ensures below { OnOk result ((states : ℕ) → IfSome choice (λ a. a.to < states) →
        LeadBelow states actions.old.items → LeadBelow states actions.new.items) }
{
    match choice {
        Some(action) => place_of(actions, action),
        None => Ok(256),
    }
}

/// What a state does at one turn.
fn row_of<P: Plan>(alloc: Global, plan: &P, state: u64, turn: usize) -> Result<Row, NoMemory>
    requires { state < P.states plan.now }
    ensures { IfOk result (λ row. IsRow row.named.items row.actions.items (P.states plan.now)
        (λ byte. slice_get (P.rows plan.now state byte) turn)) }
{
    let mut named = Vec::new(alloc);
    let mut actions = Vec::new(alloc);
    for byte in 0..256usize {
        let choice = plan.choice(alloc, state, byte as u8, turn)?;
        let place = name_choice(&mut actions, choice)?;
        named.push(place)?;
    }
    Ok(Row { named, actions })
}

/// Adds what a state does at one turn.
fn add_turn<P: Plan>(
    alloc: Global,
    table: &mut Table,
    plan: &P,
    state: u64,
    turn: usize,
) -> Result<(), NoMemory>
    requires state { state < P.states plan.now }
    requires all { table.old.states ≡ P.states plan.now }
    ensures moves { OnOk result (AddsTurn table.old.moves.items table.new.moves.items state
        (λ byte. slice_get (P.rows plan.now state byte) turn)) }
    ensures states { table.new.states ≡ table.old.states }
    ensures start { table.new.start ≡ table.old.start }
    ensures ends { table.new.ends.items ≡ table.old.ends.items }
{
    let row = row_of(alloc, plan, state, turn)?;
    table.add_row(alloc, state, row.named.as_slice(), row.actions.as_slice())
}

/// Adds what a state may put out at the end.
fn add_last<P: Plan>(alloc: Global, table: &mut Table, plan: &P, state: u64) -> Result<(), NoMemory>
    requires state { state < P.states plan.now }
    requires all { table.old.states ≡ P.states plan.now }
    ensures ends { OnOk result ((s : ℕ) → stops table.new.ends.items s
        ≡ stops table.old.ends.items s ++ (if state == s then P.lasts plan.now state else [])) }
    ensures states { table.new.states ≡ table.old.states }
    ensures start { table.new.start ≡ table.old.start }
    ensures moves { table.new.moves.items ≡ table.old.moves.items }
{
    match plan.last(alloc, state)? {
        Some(out) => table.add_end(TableEnd { state, out }),
        None => Ok(()),
    }
}

/// Adds all that a state does.
fn add_state<P: Plan>(
    alloc: Global,
    table: &mut Table,
    plan: &P,
    state: u64,
) -> Result<(), NoMemory>
    requires state { state < P.states plan.now }
    requires all { table.old.states ≡ P.states plan.now }
    ensures { OnOk result
        (AddsState table.old table.new state (P.rows plan.now state) (P.lasts plan.now state)) }
{
    add_turn(alloc, table, plan, state, 0)?;
    add_turn(alloc, table, plan, state, 1)?;
    add_turn(alloc, table, plan, state, 2)?;
    add_last(alloc, table, plan, state)?;
    Ok(())
}

/// The table of a machine that is written down.
pub fn table_of<P: Plan>(alloc: Global, plan: &P) -> Result<Table, NoMemory>
    ensures { IfOk result
        (λ table. IsListed table (P.states plan.now) (P.rows plan.now) (P.lasts plan.now)) }
{
    let states = plan.states();
    let mut table = Table::new(alloc, states, 0);
    for state in 0..states {
        add_state(alloc, &mut table, plan, state)?;
    }
    Ok(table)
}
