//! Outputs, front by front.

ghost use Rattle.std.specs.Prelude.{◌≡◌, ◌<◌, ◌≤◌, ℕ, IfOk, OnOk, take};
ghost use Rattle.numbered_sets.specs.Numbers.{Keeps};
ghost use Rattle.chart_grammar.specs.Fronts.{StandsFor, AddsFronts};
ghost use Rattle.chart_grammar.specs.Exactness.{exact_front};

use cfg_grammar::Symbol;
use indexmap::IndexSet;
use numbered_sets::number;
use text_base::{Exact, NoMemory};

/// The front of an output: what stands before its last symbol, as 0 for nothing or the nonterminal
/// of a front, and its last symbol.
#[derive(Clone, Copy, Debug, PartialEq, Eq, Hash)]
pub struct Front {
    pub before: u64,
    pub last: Symbol,
}

impl Exact for Front {
    ghost exact = { exact_front };
}

/// What stands for the symbols, with their fronts numbered and the front n as the nonterminal
/// `base` + n.
pub fn front_of(
    fronts: &mut IndexSet<Front>,
    base: u64,
    symbols: &[Symbol],
) -> Result<u64, NoMemory>
    requires { base ≤ 9223372036854775808 }
    ensures stands { IfOk result (λ n. StandsFor base fronts.new.keys n symbols.now) }
    ensures keeps { OnOk result (Keeps fronts.old.keys fronts.new.keys) }
    ensures adds { OnOk result (AddsFronts base fronts.old.keys fronts.new.keys symbols.now) }
{
    let mut before = 0;
    for symbol in symbols {
        let (number, _) = number(
            fronts,
            Front {
                before,
                last: *symbol,
            },
        )?;
        before = base + number as u64;
    }
    Ok(before)
}
