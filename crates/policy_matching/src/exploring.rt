//! All derivatives of an expression, each once.

ghost use Rattle.std.specs.Prelude.{◌≡◌, ◌≤◌, ◌<◌, ◌+◌, ℕ, Some, slice_get, length, IfOk, IfErr, OnOk};
ghost use Rattle.derivatives.specs.Expressions.{Expr};
ghost use Rattle.derivatives.specs.Derivatives.{after};
ghost use Rattle.derivatives.specs.Standing.{expr_at, IsExpr, Grows};
ghost use Rattle.policy_matching.specs.Outside.{AreBehind, AreExpressions, AreRows, AreRuns, IsOutside, IsRow, IsStatesCause, Reaches, StandsFor};

use crate::outside::Outside;
use crate::refusal::{STATE_LIMIT, StatesRefusal};
use crate::rows::{Row, Run};
use derivatives::Arena;
use indexmap::IndexSet;
use numbered_sets::{count, number};
use std::alloc::Global;
use text_base::NoMemory;

/// The run that begins with a byte, with the state that it leads to numbered.
fn next_run(
    arena: &mut Arena,
    places: &mut IndexSet<u64>,
    place: u64,
    byte: u8,
) -> Result<Run, NoMemory>
    requires { IsExpr arena.old place }
    ensures grows { Grows arena.old arena.new }
    ensures reaches { OnOk result
        (Reaches arena.old arena.new places.old.keys places.new.keys place) }
    ensures last { IfOk result (λ run. byte ≤ run.last) }
    ensures leads { IfOk result (λ run. (b : ℕ) → byte ≤ b → b ≤ run.last
        → StandsFor arena.new places.new.keys run.to (after b (expr_at arena.old place))) }
{
    let last = arena.class_end(byte, place as usize);
    let behind = arena.derivative(byte, place as usize)?;
    let (to, _) = number(places, behind as u64)?;
    Ok(Run {
        last,
        to: to as u64,
    })
}

/// The runs of the state with this place. One derivative is made for each.
fn runs_of(
    alloc: Global,
    arena: &mut Arena,
    places: &mut IndexSet<u64>,
    place: u64,
) -> Result<Vec<Run>, NoMemory>
    requires { IsExpr arena.old place }
    ensures grows { Grows arena.old arena.new }
    ensures reaches { OnOk result
        (Reaches arena.old arena.new places.old.keys places.new.keys place) }
    ensures runs { IfOk result
        (λ runs. AreRuns arena.new places.new.keys (expr_at arena.old place) 256 runs.items) }
{
    let mut runs = Vec::new(alloc);
    let mut next: u16 = 0;
    while next < 256 {
        let run = next_run(arena, places, place, next as u8)?;
        runs.push(run)?;
        next = u16::from(run.last) + 1;
    }
    Ok(runs)
}

/// The state with this place.
fn row_of(
    alloc: Global,
    arena: &mut Arena,
    places: &mut IndexSet<u64>,
    place: u64,
) -> Result<Row, NoMemory>
    requires { IsExpr arena.old place }
    ensures grows { Grows arena.old arena.new }
    ensures reaches { OnOk result
        (Reaches arena.old arena.new places.old.keys places.new.keys place) }
    ensures row { IfOk result (IsRow arena.new places.new.keys (expr_at arena.old place)) }
{
    let ends = arena.may_end(place as usize);
    let runs = runs_of(alloc, arena, places, place)?;
    Ok(Row { ends, runs })
}

/// The place of a state.
fn place_of(places: &IndexSet<u64>, state: usize) -> u64
    requires { state < length places.now.keys }
    ensures { slice_get places.now.keys state ≡ Some result }
{
    match places.get_index(state) {
        Some(place) => *place,
        None => unreachable!(),
    }
}

/// The refusal where there are more states than the limit allows.
fn within_limit(arena: &Arena, places: &IndexSet<u64>) -> Result<(), StatesRefusal>
    ensures { IfErr result (λ refusal. (e : Expr) → AreBehind e arena.now places.now.keys
        → IsStatesCause e refusal) }
{
    let _each_once = arena.len();
    let count = count(places) as u64;
    if count > STATE_LIMIT {
        return Err(StatesRefusal::States { count });
    }
    Ok(())
}

/// Puts the row of the next state behind the others.
fn add_row(
    alloc: Global,
    arena: &mut Arena,
    places: &mut IndexSet<u64>,
    rows: &mut Vec<Row>,
) -> Result<(), NoMemory>
    requires next { length rows.old.items < length places.old.keys }
    requires are { AreExpressions arena.old places.old.keys }
    ensures grows { Grows arena.old arena.new }
    ensures more { OnOk result (length rows.new.items ≡ length rows.old.items + 1) }
    ensures rows { OnOk result ((e : Expr) → AreRows e arena.old places.old.keys rows.old.items
        → AreRows e arena.new places.new.keys rows.new.items) }
{
    let place = place_of(places, rows.len());
    let row = row_of(alloc, arena, places, place)?;
    rows.push(row)?;
    Ok(())
}

/// The reader of an expression.
///
/// # Errors
///
/// `States` only where the expression has at least so many derivatives, over `STATE_LIMIT`.
/// `Memory` may come at any time.
pub(crate) fn outside_of(
    alloc: Global,
    arena: &mut Arena,
    root: usize,
) -> Result<Outside, StatesRefusal>
    requires { IsExpr arena.old root }
    ensures grows { Grows arena.old arena.new }
    ensures outside { IfOk result
        (λ outside. IsOutside (expr_at arena.old root) outside.rows.items) }
    ensures cause { IfErr result (IsStatesCause (expr_at arena.old root)) }
{
    let mut places = IndexSet::new(alloc);
    let (_, _) = number(&mut places, root as u64)?;
    let mut rows = Vec::new(alloc);
    while rows.len() < count(&places) {
        within_limit(arena, &places)?;
        add_row(alloc, arena, &mut places, &mut rows)?;
    }
    let _each_once = arena.len();
    Ok(Outside { rows })
}
