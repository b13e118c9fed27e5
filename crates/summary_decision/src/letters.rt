//! What stands for symbols that are no nonterminals.

ghost use Rattle.std.specs.Prelude.{◌≡◌, IfOk};
ghost use Rattle.summary_decision.specs.Joints.{IsLetterOf};

use crate::question::Question;
use cfg_grammar::Symbol;
use derivations::Part;
use std::hash::Hash;
use tag_sums::Summary;
use text_base::{Exact, NoMemory};

/// A part of a derivation, with the sum of its sentence.
#[derive(Drop)]
pub struct Piece<T: Exact + Hash + Drop> {
    pub part: Part,
    pub sum: T,
}

/// The first byte of a range or the token, with its sum. None exactly at a nonterminal.
pub fn letter<S: Summary>(
    question: &Question<S>,
    symbol: Symbol,
) -> Result<Option<Piece<S::Sum>>, NoMemory>
    ensures { IfOk result (λ o. IsLetterOf (S.sum_of question.now.summary.now) symbol o) }
{
    match symbol {
        Symbol::Range(range) => {
            let sum = question.summary.unit(question.alloc)?;
            Ok(Some(Piece {
                part: Part::Byte(range.lo),
                sum,
            }))
        }
        Symbol::Token(token) => {
            let sum = question.summary.of_token(question.alloc, token)?;
            Ok(Some(Piece {
                part: Part::Token(token),
                sum,
            }))
        }
        Symbol::Nt(_) => Ok(None),
    }
}
