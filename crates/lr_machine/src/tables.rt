//! Tables in memory.

ghost use Rattle.std.specs.Prelude.{◌≡◌, ◌<◌, ◌+◌, [], slice_index_or};
ghost use Rattle.lr_tables.specs.Grammars as grammars;
ghost use Rattle.lr_tables.specs.Machine as machine;
ghost use Rattle.lr_machine.specs.Shown.{shown, gotos_of, rows_of, step_for};

use lr_tables::{Rule, Step};

/// The tables of a grammar of so many terminals and nonterminals.
#[derive(Clone, Copy)]
pub struct Tables<'a, const T: usize, const N: usize> {
    /// What each state does at each terminal, as a number: see `step_of`.
    pub rows: &'a [[u16; T]],
    /// What some states do at each nonterminal, each row once.
    pub gotos: &'a [[u16; N]],
    /// Which of these rows is that of each state.
    pub goto_of: &'a [u16],
    /// The symbol that leads to each state.
    pub accesses: &'a [u16],
    /// The rules of the grammar.
    pub rules: &'a [Rule],
    /// The power of each symbol to the left.
    pub lefts: &'a [u16],
    /// The power of each symbol to the right.
    pub rights: &'a [u16],
    /// How many terminals there are, with the end of the input, which is 0.
    pub terminals: u16,
    /// What a whole input is.
    pub start: u16,
}

/// What a number says: 0, that nothing goes on, and 1, that the input is read; from 2 on the even
/// ones are states, the odd ones rules.
pub fn step_of(code: u16) -> Step
    ensures { result ≡ step_for code }
{
    if code == 0 {
        return Step::Fail;
    }
    if code == 1 {
        return Step::Accept;
    }
    let number = code / 2 - 1;
    if code % 2 == 0 {
        Step::Go(number)
    } else {
        Step::Reduce(number)
    }
}

// The number of what a row says at a place, and 0 behind its end.
fn code_in(row: &[u16], place: usize) -> u16
    ensures { result ≡ slice_index_or row.now place 0 }
{
    match row.get(place) {
        Some(code) => *code,
        None => 0,
    }
}

// What a state does at each nonterminal, and nothing where no row says so.
fn gotos_at<'a, const T: usize, const N: usize>(tables: &Tables<'a, T, N>, state: u16) -> &'a [u16]
    requires { T + N < 65536 }
    ensures { result.now ≡ gotos_of tables.now.gotos.now tables.now.goto_of.now state }
{
    match tables.goto_of.get(state as usize) {
        Some(place) => match tables.gotos.get(*place as usize) {
            Some(row) => row,
            None => &[],
        },
        None => &[],
    }
}

// The number of what a state does at a symbol.
fn code_at<const T: usize, const N: usize>(tables: &Tables<T, N>, state: u16, symbol: u16) -> u16
    requires { T + N < 65536 }
    ensures { result ≡ slice_index_or (slice_index_or (rows_of tables.now.rows.now
        tables.now.gotos.now tables.now.goto_of.now) state []) symbol 0 }
{
    match tables.rows.get(state as usize) {
        Some(row) => {
            let codes: &[u16] = row;
            let place = symbol as usize;
            if place < codes.len() {
                code_in(codes, place)
            } else {
                code_in(gotos_at(tables, state), place - codes.len())
            }
        }
        None => 0,
    }
}

/// What a state does at a symbol.
pub fn entry<const T: usize, const N: usize>(tables: &Tables<T, N>, state: u16, symbol: u16) -> Step
    requires { T + N < 65536 }
    ensures { result ≡ machine.entry (shown tables.now) state symbol }
{
    step_of(code_at(tables, state, symbol))
}

/// Whether the rule does not stand behind this symbol.
pub fn is_barred<const T: usize, const N: usize>(
    tables: &Tables<T, N>,
    rule: &Rule,
    symbol: u16,
) -> bool
    ensures { result ≡ grammars.is_barred (shown tables.now).grammar rule.now symbol }
{
    let power = match tables.rights.get(symbol as usize) {
        Some(power) => *power,
        None => 0,
    };
    rule.behind < power
}

/// The symbol that leads to a state.
pub fn access<const T: usize, const N: usize>(tables: &Tables<T, N>, state: u16) -> u16
    ensures { result ≡ machine.access (shown tables.now) state }
{
    match tables.accesses.get(state as usize) {
        Some(symbol) => *symbol,
        None => 0,
    }
}
