//! Productions whose nonterminals are numbered behind others.

ghost use Rattle.std.specs.Prelude.{◌≡◌, IfOk};
ghost use Rattle.given_texts.specs.Moved as spec;

use crate::sums::sum;
use cfg_grammar::{Production, Right, Symbol};
use text_base::{NoMemory, Nt};

fn moved_symbol(base: u64, symbol: Symbol) -> Result<Symbol, NoMemory>
    ensures { IfOk result (λ s. s ≡ spec.moved_symbol base symbol) }
{
    match symbol {
        Symbol::Range(range) => Ok(Symbol::Range(range)),
        Symbol::Token(token) => Ok(Symbol::Token(token)),
        Symbol::Nt(a) => {
            let number = sum(base, a.0)?;
            Ok(Symbol::Nt(Nt(number)))
        }
    }
}

fn moved_right(base: u64, right: Right) -> Result<Right, NoMemory>
    ensures { IfOk result (λ r. r ≡ spec.moved_right base right) }
{
    match right {
        Right::Empty => Ok(Right::Empty),
        Right::One(a) => {
            let a = moved_symbol(base, a)?;
            Ok(Right::One(a))
        }
        Right::Two(a, b) => {
            let a = moved_symbol(base, a)?;
            let b = moved_symbol(base, b)?;
            Ok(Right::Two(a, b))
        }
    }
}

/// The production with the number of each nonterminal so much higher.
pub fn moved_production(base: u64, production: Production) -> Result<Production, NoMemory>
    ensures { IfOk result (λ p. p ≡ spec.moved_production base production) }
{
    let left = sum(base, production.left.0)?;
    let right = moved_right(base, production.right)?;
    Ok(Production {
        left: Nt(left),
        right,
    })
}
