//! Steps, each derivative made once.

ghost use Rattle.std.specs.Prelude.{◌≡◌, ℕ, [], Some, Ok, IfOk};
ghost use Rattle.derivatives.specs.Derivatives.{after};
ghost use Rattle.derivatives.specs.Standing.{expr_at, IsExpr, IsMade, Grows};
ghost use Rattle.derivatives.specs.Answers.{answer_of};
ghost use Rattle.derivatives.specs.Steps.{IsKnown, StaysKnown};

use crate::arena::Arena;
use crate::ask::Ask;
use crate::steps::Steps;
use indexmap::IndexMap;
use std::alloc::Global;
use text_base::NoMemory;

impl Steps {
    /// Expressions of which no derivative was asked for. Takes no memory.
    pub fn new(alloc: Global, arena: Arena) -> Steps
        ensures { result.arena ≡ arena }
    {
        Steps {
            arena,
            answers: IndexMap::new(alloc),
        }
    }

    /// The derivative of an expression by a byte. One that was asked for before takes no memory.
    /// For want of memory all stays known that was known, and each number stands for what it
    /// stood for.
    pub fn step(&mut self, place: usize, byte: u8) -> Result<usize, NoMemory>
        requires { IsExpr self.old.arena place }
        ensures made { IfOk result
            (λ r. IsMade self.new.arena r (after byte (expr_at self.old.arena place))) }
        ensures keeps { Grows self.old.arena self.new.arena }
        ensures asked { (n : ℕ) → IsKnown self.old place byte n
            → (result ≡ Ok n) × (self.new ≡ self.old) }
        ensures noted { IfOk result (IsKnown self.new place byte) }
        ensures known { StaysKnown self.old self.new }
    {
        let ask = Ask { place, byte };
        match answered(&self.answers, ask) {
            Some(answer) => Ok(answer),
            None => {
                let answer = self.arena.derivative(byte, place)?;
                self.answers.insert(ask, answer)?;
                Ok(answer)
            }
        }
    }
}

/// What was answered, if it was asked for.
fn answered(answers: &IndexMap<Ask, usize>, ask: Ask) -> Option<usize>
    ensures { result ≡ answer_of answers.now ask }
{
    answers.get(&ask).copied()
}
