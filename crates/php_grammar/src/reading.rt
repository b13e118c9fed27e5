//! The tables, and what they read.

ghost use Rattle.std.specs.Prelude.{◌≡◌, MatchResult};
ghost use Rattle.lr_tables.specs.Grammars.{IsOnly, IsFirstWrong};
ghost use Rattle.lr_machine.specs.Refusals.{IsRefused};
ghost use Rattle.lr_machine.specs.Shown.{shown};
ghost use Rattle.php_grammar.specs.Php.{php};

use crate::rows::{ACCESSES, GOTO_OF, GOTOS, ROWS};
use crate::rules::{LEFTS, RIGHTS, RULES, START, TERMINALS};
use lr_machine::{ReadError, Tables, parse};
use lr_tables::Event;
use std::alloc::Global;

// The tables of the grammar.
fn tables() -> Tables<'static, 121, 117>
    ensures { shown result ≡ php }
{
    Tables {
        rows: &ROWS,
        gotos: &GOTOS,
        goto_of: &GOTO_OF,
        accesses: &ACCESSES,
        rules: &RULES,
        lefts: &LEFTS,
        rights: &RIGHTS,
        terminals: TERMINALS,
        start: START,
    }
}

/// What is told of the only derivation of a file's terminals, by the numbers of `rules`: its tokens
/// and rules, the parts of a rule before the rule. Source: PHP manual, "Language Reference".
///
/// # Errors
///
/// `Wrong`: the terminals are no file of PHP; its place, from 0 on, is that of the first one that no
/// file goes on with, or their count where each file goes on. `NoMemory`: there is no memory.
pub fn read_file(alloc: Global, kinds: &[u16]) -> Result<Vec<Event>, ReadError>
    ensures { MatchResult result (λ events. IsOnly php.grammar kinds.now events.items)
        (λ error. IsRefused error (IsFirstWrong php.grammar kinds.now)) }
{
    let tables = tables();
    parse(alloc, &tables, kinds)
}
