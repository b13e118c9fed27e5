//! The turns of the machine.

ghost use Rattle.std.specs.Prelude.{◌≡◌, ◌<◌, ◌+◌, ◌∷◌, IfOk, if◌then◌else◌, List, ℕ, Some, None};
ghost use Rattle.lr_tables.specs.Grammars.{named};
ghost use Rattle.lr_tables.specs.Machine as machine;
ghost use Rattle.lr_tables.specs.declared.event.Event.{Event};
ghost use Rattle.lr_tables.specs.declared.step.Step.TheVariants.{Reduce};
ghost use Rattle.lr_machine.specs.Shown.{shown};
ghost use Rattle.lr_machine.specs.Turns.{Turns};

use crate::tables::{Tables, access, entry, is_barred};
use lr_tables::{Event, Rule, Step};
use text_base::{NoMemory, Stack};

/// What the machine holds: its states, and what was told so far.
#[derive(Debug, Drop)]
pub struct Reader {
    /// The states, the last one first.
    pub states: Stack<u16>,
    /// What was told.
    pub events: Vec<Event>,
}

/// What a turn leads to.
#[derive(Clone, Copy)]
pub enum Turn<'a> {
    /// These tokens are left.
    On(&'a [u16]),
    /// All is read.
    Done,
    /// Nothing goes on here.
    Stuck,
}

// The first token, and 0 at the end.
fn head(rest: &[u16]) -> u16
    ensures { result ≡ machine.head rest.now }
{
    match rest {
        [] => 0,
        [kind, ..] => *kind,
    }
}

// The last state, and 0 where there is none.
fn top(states: &Stack<u16>) -> u16
    ensures { result ≡ machine.top states.now }
{
    match states.last() {
        Some(state) => *state,
        None => 0,
    }
}

// One symbol that stands on the stack.
fn pop_one<const T: usize, const N: usize>(
    tables: &Tables<T, N>,
    symbol: u16,
    states: &mut Stack<u16>,
) -> bool
    ensures { (xs : List ℕ) → machine.pops (shown tables.now) (symbol ∷ xs) states.old
        ≡ (if result then machine.pops (shown tables.now) xs states.new else None) }
{
    match states.pop() {
        None => false,
        Some(state) => access(tables, state) == symbol,
    }
}

// Takes symbols that stand on the stack.
fn pops<const T: usize, const N: usize>(
    tables: &Tables<T, N>,
    back: &[u16],
    states: &mut Stack<u16>,
) -> bool
    ensures { machine.pops (shown tables.now) (named back.now) states.old
        ≡ (if result then Some states.new else None) }
{
    for symbol in back {
        if *symbol == 0 {
            return true;
        }
        if !pop_one(tables, *symbol, states) {
            return false;
        }
    }
    true
}

// The state goes onto the stack, and the next token is read.
fn shift<'a, const T: usize, const N: usize>(
    tables: &Tables<T, N>,
    state: u16,
    rest: &'a [u16],
    reader: &mut Reader,
) -> Result<Turn<'a>, NoMemory>
    ensures { IfOk result (λ turn. Turns turn rest.now reader.old reader.new
        (λ next. machine.shifted (shown tables.now) next state reader.old.states rest.now)) }
{
    match rest {
        [] => Ok(Turn::Stuck),
        [kind, later @ ..] => {
            if *kind < tables.terminals {
                reader.states.push(state)?;
                reader.events.push(Event::Token)?;
                Ok(Turn::On(later))
            } else {
                Ok(Turn::Stuck)
            }
        }
    }
}

// The left side of a rule goes onto the stack, whose right side is off it.
fn put<'a, const T: usize, const N: usize>(
    tables: &Tables<T, N>,
    rule: u16,
    found: &Rule,
    rest: &'a [u16],
    reader: &mut Reader,
) -> Result<Turn<'a>, NoMemory>
    requires { T + N < 65536 }
    ensures { IfOk result (λ turn. Turns turn rest.now reader.old reader.new (λ next.
        machine.replaced (shown tables.now) next rule found.now (Some reader.old.states) rest.now)) }
{
    if is_barred(tables, found, access(tables, top(&reader.states))) {
        return Ok(Turn::Stuck);
    }
    match entry(tables, top(&reader.states), found.left) {
        Step::Go(state) => {
            reader.states.push(state)?;
            reader.events.push(Event::Rule(rule))?;
            Ok(Turn::On(rest))
        }
        Step::Fail | Step::Reduce(_) | Step::Accept => Ok(Turn::Stuck),
    }
}

// The right side of a rule goes from the stack, and its left side onto it.
fn reduce<'a, const T: usize, const N: usize>(
    tables: &Tables<T, N>,
    rule: u16,
    rest: &'a [u16],
    reader: &mut Reader,
) -> Result<Turn<'a>, NoMemory>
    requires { T + N < 65536 }
    ensures { IfOk result (λ turn. Turns turn rest.now reader.old reader.new (λ next.
        machine.acted (shown tables.now) next (Reduce rule) reader.old.states rest.now)) }
{
    match tables.rules.get(rule as usize) {
        None => Ok(Turn::Stuck),
        Some(found) => {
            if !pops(tables, &found.back, &mut reader.states) {
                return Ok(Turn::Stuck);
            }
            put(tables, rule, found, rest, reader)
        }
    }
}

// All is read, where nothing is left and the start alone stands on the stack.
fn accept<'a, const T: usize, const N: usize>(
    tables: &Tables<T, N>,
    rest: &'a [u16],
    reader: &mut Reader,
) -> Turn<'a>
    ensures { Turns result rest.now reader.old reader.new
        (λ next. machine.accepted (shown tables.now) next reader.old.states rest.now) }
{
    match rest {
        [] => match reader.states.pop() {
            None => Turn::Stuck,
            Some(state) => match reader.states.last() {
                Some(_) => Turn::Stuck,
                None => {
                    if access(tables, state) == tables.start {
                        Turn::Done
                    } else {
                        Turn::Stuck
                    }
                }
            },
        },
        [_, ..] => Turn::Stuck,
    }
}

/// One turn.
pub fn go_on<'a, const T: usize, const N: usize>(
    tables: &Tables<T, N>,
    rest: &'a [u16],
    reader: &mut Reader,
) -> Result<Turn<'a>, NoMemory>
    requires { T + N < 65536 }
    ensures { IfOk result (λ turn. Turns turn rest.now reader.old reader.new
        (λ next. machine.acted (shown tables.now) next (machine.entry (shown tables.now)
        (machine.top reader.old.states) (machine.head rest.now)) reader.old.states rest.now)) }
{
    match entry(tables, top(&reader.states), head(rest)) {
        Step::Fail => Ok(Turn::Stuck),
        Step::Go(state) => shift(tables, state, rest, reader),
        Step::Reduce(rule) => reduce(tables, rule, rest, reader),
        Step::Accept => Ok(accept(tables, rest, reader)),
    }
}
