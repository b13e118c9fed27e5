//! That the bytes of a grammar are below 256, as contracts see numbers.

ghost use Rattle.std.specs.Prelude.{◌<◌, ℕ, List, All};
ghost use Rattle.cfg_grammar.specs.declared.symbol.Symbol as symbols;
ghost use Rattle.fst_core.specs.Outputs.{DerivesText};

use cfg_grammar::{Grammar, productions_fit};

/// The texts that a grammar derives are of bytes, as contracts see numbers. It goes over the
/// productions and does nothing.
pub fn texts_fit(grammar: &Grammar)
    ensures { (text : List ℕ)
        → DerivesText grammar.now.productions.items (symbols.Symbol.Nt grammar.now.start) text
        → All (λ byte. byte < 256) text }
{
    productions_fit(grammar.productions.as_slice());
}
