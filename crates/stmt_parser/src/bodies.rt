//! Bodies that begin.

ghost use Rattle.std.specs.Prelude.{◌∷◌, []};
ghost use Rattle.expr_parser.specs.Heads.{terminals_of};
ghost use Rattle.stmt_machine.specs.Actions.{open_action};
ghost use Rattle.stmt_machine.specs.Machine.{moves};
ghost use Rattle.stmt_parser.specs.Nexts.{body_next};
ghost use Rattle.stmt_parser.specs.Outcomes.{Moves};

use crate::reader::Reader;
use crate::step::{Step, gone};
use expr_parser::head::behind_sign;
use php_syntax::token::{Sign, Token};
use stmt_machine::frame::{Focus, Frame, Loop};
use text_base::NoMemory;

impl Reader {
    /// A body begins.
    pub(crate) fn open_body<'a>(
        &mut self,
        of_loop: bool,
        frame: Frame,
        focus: Focus,
        rest: &'a [Token],
    ) -> Result<Step<'a>, NoMemory>
        ensures { Moves (moves focus (frame ∷ self.old.frames) (terminals_of rest.now)
            (open_action of_loop ∷ [])) self.old result self.new }
    {
        let done = self.maker.open(self.alloc, of_loop)?;
        self.frames.push(frame)?;
        Ok(gone(done, focus, rest))
    }

    /// The body of a loop begins.
    pub(crate) fn body_step<'a>(
        &mut self,
        of: Loop,
        rest: &'a [Token],
    ) -> Result<Step<'a>, NoMemory>
        ensures { Moves (body_next of self.old.frames (terminals_of rest.now))
            self.old result self.new }
    {
        match behind_sign(rest, Sign::Colon) {
            Some(behind) => self.open_body(true, Frame::ColonBody(of), Focus::Behind, behind),
            None => self.open_body(true, Frame::Body(of), Focus::Begin, rest),
        }
    }
}
