//! The moves where a statement begins.

ghost use Rattle.std.specs.Prelude.{◌≡◌, ◌∷◌, List, Some, None, IfOk};
ghost use Rattle.script_grammar.specs.Terminals.{sign_terminal, word_terminal};
ghost use Rattle.expr_parser.specs.Heads.{terminals_of};
ghost use Rattle.stmt_machine.specs.declared.frame.Frame.{Frame};
ghost use Rattle.stmt_machine.specs.declared.frame.Loop.TheVariants as loops;
ghost use Rattle.stmt_machine.specs.Machine as machine;
ghost use Rattle.stmt_machine.specs.Machine.{condition_at, statement_at};
ghost use Rattle.stmt_machine.specs.Made.{Made, apply_stmt};
ghost use Rattle.stmt_builder.specs.Views.{made_of};
ghost use Rattle.stmt_builder.specs.Answers.{Does};
ghost use Rattle.stmt_parser.specs.Lasts.{last_action};
ghost use Rattle.stmt_parser.specs.Nexts.{if_next, each_next, variable_next, keyed_next};
ghost use Rattle.stmt_parser.specs.Outcomes.{acted, seen, Moves};

use crate::heads::{behind_word, inline_at, word_at};
use crate::reader::Reader;
use crate::reads::End;
use crate::step::{Step, gone};
use expr_parser::head::{behind_sign, sign_at, variable_at};
use php_syntax::token::{Sign, Token};
use script_grammar::keyword::Keyword;
use std::alloc::Global;
use stmt_builder::maker::Maker;
use stmt_machine::frame::{Focus, Frame, Loop, Row};
use text_base::{Bytes, NoMemory};

/// What is made of the value of a statement.
#[derive(Debug, Drop)]
pub(crate) enum Last {
    /// A statement of its own.
    Run,
    /// An output of it.
    Print,
    /// A return of it.
    Return,
}

// What is made of the value of a statement.
fn put_value(alloc: Global, maker: &mut Maker, last: Last) -> Result<bool, NoMemory>
    ensures { IfOk result (λ done.
        Does (apply_stmt (last_action last) (made_of maker.old)) done (made_of maker.new)) }
{
    match last {
        Last::Run => maker.run(),
        Last::Print => maker.echo(alloc, 1),
        Last::Return => maker.give_back(true),
    }
}

// A loop over keys and values.
fn keyed_loop(alloc: Global, key: &Bytes, value: &Bytes) -> Result<Loop, NoMemory>
    ensures { IfOk result (λ of. of ≡ loops.Each (Some key.now) value.now) }
{
    Ok(Loop::Each {
        key: Some(key.copy(alloc)?),
        value: value.copy(alloc)?,
    })
}

// A loop over values.
fn each_loop(alloc: Global, value: &Bytes) -> Result<Loop, NoMemory>
    ensures { IfOk result (λ of. of ≡ loops.Each None value.now) }
{
    Ok(Loop::Each {
        key: None,
        value: value.copy(alloc)?,
    })
}

// Behind `for`.
fn for_step(rest: &[Token]) -> Step
    ensures { (fs : List Frame) (m : Made) →
        acted (machine.for_begin_move fs (machine.behind_paren (terminals_of rest.now))) m
        ≡ seen result fs m }
{
    match behind_sign(rest, Sign::OpenParen) {
        None => Step::Stuck(rest),
        Some(inner) => Step::Go(Focus::Start(Row::Begin), inner),
    }
}

impl Reader {
    /// A statement of one expression and a semicolon.
    pub(crate) fn value_step<'a>(
        &mut self,
        last: Last,
        rest: &'a [Token],
    ) -> Result<Step<'a>, NoMemory>
        ensures { Moves (machine.value_move (last_action last) self.old.frames
            (statement_at (terminals_of rest.now))) self.old result self.new }
    {
        let Some(behind) = self.read_ended(End::Semicolon, rest)? else {
            return Ok(Step::Stuck(rest));
        };
        let done = put_value(self.alloc, &mut self.maker, last)?;
        Ok(gone(done, Focus::Behind, behind))
    }

    // Behind the condition of an `if`.
    fn if_body<'a>(&mut self, rest: &'a [Token]) -> Result<Step<'a>, NoMemory>
        ensures { Moves (if_next self.old.frames (terminals_of rest.now))
            self.old result self.new }
    {
        match behind_sign(rest, Sign::Colon) {
            Some(behind) => self.open_body(false, Frame::ColonArm(1), Focus::Behind, behind),
            None => self.open_body(false, Frame::Arm(1), Focus::Begin, rest),
        }
    }

    // Behind `if`.
    fn if_step<'a>(&mut self, rest: &'a [Token]) -> Result<Step<'a>, NoMemory>
        ensures { Moves (machine.if_move self.old.frames (condition_at (terminals_of rest.now)))
            self.old result self.new }
    {
        let Some(behind) = self.read_condition(rest)? else {
            return Ok(Step::Stuck(rest));
        };
        self.if_body(behind)
    }

    // Behind `while`.
    fn while_step<'a>(&mut self, rest: &'a [Token]) -> Result<Step<'a>, NoMemory>
        ensures { Moves (machine.while_move self.old.frames (condition_at (terminals_of rest.now)))
            self.old result self.new }
    {
        let Some(behind) = self.read_condition(rest)? else {
            return Ok(Step::Stuck(rest));
        };
        self.body_step(Loop::While, behind)
    }

    // Behind the variable of a key.
    fn keyed_step<'a>(&mut self, key: &Bytes, rest: &'a [Token]) -> Result<Step<'a>, NoMemory>
        ensures { Moves (keyed_next key.now self.old.frames (terminals_of rest.now))
            self.old result self.new }
    {
        let Some(behind) = behind_sign(rest, Sign::DoubleArrow) else {
            return Ok(Step::Stuck(rest));
        };
        let Some((value, closing)) = variable_at(behind) else {
            return Ok(Step::Stuck(behind));
        };
        let Some(last) = behind_sign(closing, Sign::CloseParen) else {
            return Ok(Step::Stuck(closing));
        };
        let of = keyed_loop(self.alloc, key, value)?;
        self.body_step(of, last)
    }

    // Behind the first variable of a `foreach`.
    fn variable_step<'a>(&mut self, name: &Bytes, rest: &'a [Token]) -> Result<Step<'a>, NoMemory>
        ensures { Moves (variable_next name.now self.old.frames (terminals_of rest.now))
            self.old result self.new }
    {
        let Some(behind) = behind_sign(rest, Sign::CloseParen) else {
            return self.keyed_step(name, rest);
        };
        let of = each_loop(self.alloc, name)?;
        self.body_step(of, behind)
    }

    // Behind the array of a `foreach`.
    fn each_step<'a>(&mut self, rest: &'a [Token]) -> Result<Step<'a>, NoMemory>
        ensures { Moves (each_next self.old.frames (terminals_of rest.now))
            self.old result self.new }
    {
        let Some(behind) = behind_word(rest, Keyword::As) else {
            return Ok(Step::Stuck(rest));
        };
        let Some((name, last)) = variable_at(behind) else {
            return Ok(Step::Stuck(behind));
        };
        self.variable_step(name, last)
    }

    // Behind `foreach`.
    fn foreach_step<'a>(&mut self, rest: &'a [Token]) -> Result<Step<'a>, NoMemory>
        ensures { Moves (machine.foreach_begin_move self.old.frames
            (machine.behind_paren (terminals_of rest.now))) self.old result self.new }
    {
        let Some(inner) = behind_sign(rest, Sign::OpenParen) else {
            return Ok(Step::Stuck(rest));
        };
        let Some(behind) = self.read_value(inner)? else {
            return Ok(Step::Stuck(inner));
        };
        self.each_step(behind)
    }

    // A statement that begins with a sign, which is the first of the tokens.
    fn sign_step<'a>(
        &mut self,
        sign: Sign,
        behind: &'a [Token],
        rest: &'a [Token],
    ) -> Result<Step<'a>, NoMemory>
        requires { terminals_of rest.now ≡ sign_terminal sign ∷ terminals_of behind.now }
        ensures { Moves (machine.sign_move sign self.old.frames (terminals_of behind.now))
            self.old result self.new }
    {
        match sign {
            Sign::Semicolon => Ok(Step::Go(Focus::Behind, behind)),
            Sign::OpenBrace => self.enter(Frame::Block, Focus::Behind, behind),
            _ => self.value_step(Last::Run, rest),
        }
    }

    // A statement that begins with a word, which is the first of the tokens.
    fn word_step<'a>(
        &mut self,
        word: Keyword,
        behind: &'a [Token],
        rest: &'a [Token],
    ) -> Result<Step<'a>, NoMemory>
        requires { terminals_of rest.now ≡ word_terminal word ∷ terminals_of behind.now }
        ensures { Moves (machine.word_move word self.old.frames (terminals_of behind.now))
            self.old result self.new }
    {
        match word {
            Keyword::Echo => self.listed_step(Row::Echo, 1, behind),
            Keyword::Print => self.value_step(Last::Print, behind),
            Keyword::If => self.if_step(behind),
            Keyword::While => self.while_step(behind),
            Keyword::Do => self.open_body(true, Frame::Do, Focus::Begin, behind),
            Keyword::For => Ok(for_step(behind)),
            Keyword::Foreach => self.foreach_step(behind),
            Keyword::Break => self.break_step(behind),
            Keyword::Continue => self.continue_step(behind),
            Keyword::Return => self.return_step(behind),
            Keyword::Include => self.include_step(behind),
            Keyword::Require => self.include_step(behind),
            Keyword::Exit => self.exit_step(behind),
            _ => self.value_step(Last::Run, rest),
        }
    }

    /// Where a statement begins.
    pub(crate) fn begin_step<'a>(&mut self, rest: &'a [Token]) -> Result<Step<'a>, NoMemory>
        ensures { Moves (machine.begin_move self.old.frames (terminals_of rest.now))
            self.old result self.new }
    {
        if let Some((sign, behind)) = sign_at(rest) {
            return self.sign_step(sign, behind, rest);
        }
        if let Some((word, behind)) = word_at(rest) {
            return self.word_step(word, behind, rest);
        }
        let Some((text, behind)) = inline_at(rest) else {
            return self.value_step(Last::Run, rest);
        };
        let done = self.maker.inline(self.alloc, text)?;
        Ok(gone(done, Focus::Behind, behind))
    }
}
