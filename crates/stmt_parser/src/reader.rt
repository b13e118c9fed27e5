//! Whole files.

ghost use Rattle.std.specs.Prelude.{◌≡◌, ◌∷◌, [], Some, IfOk};
ghost use Rattle.expr_parser.specs.Heads.{terminals_of};
ghost use Rattle.stmt_machine.specs.Machine as machine;
ghost use Rattle.stmt_machine.specs.Machine.{moves};
ghost use Rattle.stmt_machine.specs.Made.{nothing_made};
ghost use Rattle.stmt_machine.specs.Reading.{makes_file};
ghost use Rattle.stmt_builder.specs.Views.{made_of};
ghost use Rattle.stmt_parser.specs.Outcomes.{Moves};
ghost use Rattle.stmt_parser.specs.Readings.{IsReading};

use crate::step::Step;
use php_syntax::token::Token;
use php_syntax::tree::FileTree;
use std::alloc::Global;
use stmt_builder::maker::Maker;
use stmt_machine::frame::{Focus, Frame};
use stmt_machine::laws::{moves_get_lighter, runs_go_on};
use text_base::{NoMemory, Stack};

/// What a list of tokens is.
#[derive(Debug, Drop)]
pub enum Reading {
    /// The tokens of this tree.
    File(FileTree),
    /// The tokens of a tree that is over 200 high; and the place of its first token.
    Tall { at: u32 },
    /// Not the tokens of a file; and the place of the first token that no file goes on with.
    Stuck { at: u32 },
}

// The place of the first of so many tokens that are left; of the last of all where none is left.
fn place(tokens: &[Token], left: usize) -> u32 {
    match tokens.get(tokens.len().saturating_sub(left)) {
        Some(token) => token.at,
        None => match tokens.last() {
            Some(token) => token.at,
            None => 0,
        },
    }
}

/// A reader of statements: what it has begun, the last thing begun first, and what it has made.
#[derive(Drop)]
pub(crate) struct Reader {
    pub(crate) alloc: Global,
    pub(crate) frames: Stack<Frame>,
    pub(crate) maker: Maker,
}

impl Reader {
    // At the beginning of a file.
    fn new(alloc: Global) -> Result<Reader, NoMemory>
        ensures { IfOk result
            (λ reader. (reader.frames ≡ []) × (made_of reader.maker ≡ nothing_made)) }
    {
        Ok(Reader {
            alloc,
            frames: Stack::new(alloc),
            maker: Maker::new(alloc)?,
        })
    }

    /// One more thing is begun, and another place comes next.
    pub(crate) fn enter<'a>(
        &mut self,
        frame: Frame,
        focus: Focus,
        rest: &'a [Token],
    ) -> Result<Step<'a>, NoMemory>
        ensures { Moves (moves focus (frame ∷ self.old.frames) (terminals_of rest.now) [])
            self.old result self.new }
    {
        self.frames.push(frame)?;
        Ok(Step::Go(focus, rest))
    }

    // One move of the machine, with what it does.
    fn step<'a>(&mut self, focus: Focus, rest: &'a [Token]) -> Result<Step<'a>, NoMemory>
        ensures { Moves (machine.move focus self.old.frames (terminals_of rest.now))
            self.old result self.new }
    {
        match focus {
            Focus::Begin => self.begin_step(rest),
            Focus::Behind => self.behind_step(rest),
            Focus::Start(row) => self.start_step(row, rest),
            Focus::Listed { row, count } => self.row_step(row, count, rest),
            Focus::Condition(begin) => self.condition_step(begin, rest),
            Focus::Parameters => self.parameters_step(rest),
            Focus::Parameter => self.parameter_step(rest),
            Focus::BehindParameter => self.parameter_end_step(rest),
        }
    }

    // The tree of what was made of all tokens.
    fn finish(self, tokens: &[Token]) -> Reading
        ensures { IsReading (Some (made_of self.maker)) result }
    {
        match self.maker.file() {
            Some(tree) => Reading::File(tree),
            None => Reading::Tall {
                at: place(tokens, tokens.len()),
            },
        }
    }
}

/// Reads the tokens of a file.
pub fn read_file(alloc: Global, tokens: &[Token]) -> Result<Reading, NoMemory>
    ensures { IfOk result (IsReading (makes_file (terminals_of tokens.now))) }
{
    let mut reader = Reader::new(alloc)?;
    let mut focus = Focus::Behind;
    let mut rest = tokens;
    'moves: loop {
        moves_get_lighter();
        runs_go_on();
        match reader.step(focus, rest)? {
            Step::Go(next, left) => {
                focus = next;
                rest = left;
            }
            Step::Finished => return Ok(reader.finish(tokens)),
            Step::Stuck(from) => {
                let left = reader.maker.values.left().min(from.len());
                return Ok(Reading::Stuck {
                    at: place(tokens, left),
                });
            }
        }
    }
}
