//! The small language's tables, and its reader.

ghost use Rattle.std.specs.Prelude.{◌≡◌, MatchResult};
ghost use Rattle.lr_tables.specs.Grammars.{IsOnly, IsFirstWrong};
ghost use Rattle.lr_machine.specs.Refusals.{IsRefused};
ghost use Rattle.lr_machine.specs.Shown.{shown};
ghost use Rattle.reading_tests.specs.Small.{small};

use crate::rows::{ACCESSES, GOTO_OF, GOTOS, ROWS};
use crate::rules::{LEFTS, RIGHTS, RULES, START, TERMINALS};
use lr_machine::{ReadError, Tables, parse};
use lr_tables::Event;
use std::alloc::Global;

/// The tables.
pub fn tables() -> Tables<'static, 17, 7>
    ensures { shown result ≡ small }
{
    Tables {
        rows: &ROWS,
        gotos: &GOTOS,
        goto_of: &GOTO_OF,
        accesses: &ACCESSES,
        rules: &RULES,
        lefts: &LEFTS,
        rights: &RIGHTS,
        terminals: TERMINALS,
        start: START,
    }
}

/// What is told of the only derivation of the tokens, or the place of the first one that does not
/// fit.
pub fn read_small(alloc: Global, kinds: &[u16]) -> Result<Vec<Event>, ReadError>
    ensures { MatchResult result (λ events. IsOnly small.grammar kinds.now events.items)
        (λ error. IsRefused error (IsFirstWrong small.grammar kinds.now)) }
{
    let tables = tables();
    parse(alloc, &tables, kinds)
}
