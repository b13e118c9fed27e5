//! The derivatives that were asked for.

ghost use Rattle.std.proofs.Props.{props};
ghost use Rattle.derivatives.specs.Answers.{AreAnswers};

use crate::arena::Arena;
use crate::ask::Ask;
use indexmap::IndexMap;

/// Expressions, with the derivatives that were asked for: each is made once.
#[derive(Drop)]
pub struct Steps {
    pub arena: Arena,
    pub(crate) answers: IndexMap<Ask, usize>,
    ghost right: { AreAnswers arena answers } by { Prim.hlevel props },
}
