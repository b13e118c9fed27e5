//! The state of an evaluation.

ghost use Rattle.std.specs.Prelude.{◌≡◌, [], ◌∷◌, IfOk};
ghost use Rattle.expr_evaluator.specs.Moves.{Opens};

use crate::frame::{Focus, Frame};
use crate::variables::Variables;
use php_syntax::tree::Expr;
use std::alloc::Global;
use text_base::{NoMemory, Stack};

/// What an evaluation has still to do, the last first, and the variables that it sees.
#[derive(Drop)]
pub struct Evaluator<'a> {
    pub frames: Stack<Frame<'a>>,
    pub variables: Variables<'a>,
}

impl<'a> Evaluator<'a> {
    /// An evaluation that has nothing to do yet, over these variables. Takes no memory.
    pub fn new(alloc: Global, variables: Variables<'a>) -> Evaluator<'a>
        ensures { result ≡ record { frames = []; variables = variables.entry } }
    {
        Evaluator {
            frames: Stack::new(alloc),
            variables,
        }
    }

    // Evaluates an expression for a frame.
    pub(crate) fn open(&mut self, frame: Frame<'a>, e: &'a Expr) -> Result<Focus<'a>, NoMemory>
        ensures { IfOk result (λ f. Opens frame.entry e.entry self.old f self.new) }
    {
        self.frames.push(frame)?;
        Ok(Focus::Eval(e))
    }
}
