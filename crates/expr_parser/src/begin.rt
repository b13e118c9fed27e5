//! The moves where an expression or an operand begins.

ghost use Rattle.std.specs.Prelude.{◌≡◌, ◌∷◌, IfOk};
ghost use Rattle.script_grammar.specs.Operators as operator;
ghost use Rattle.script_grammar.specs.Expressions as form;
ghost use Rattle.expr_machine.specs.Machine as machine;
ghost use Rattle.expr_builder.specs.Views.{tree_shown};
ghost use Rattle.expr_parser.specs.Heads.{terminals_of, terminal_at};
ghost use Rattle.expr_parser.specs.Outcomes.{Moves};

use crate::head::{Head, behind_sign, head_at, variable_at};
use crate::reader::Reader;
use crate::step::Step;
use expr_builder::action::{Action, Actions};
use expr_machine::frame::{Brackets, Focus, Frame};
use php_syntax::token::{Sign, Token};
use php_syntax::tree::Expr;
use script_grammar::keyword::Keyword;
use script_grammar::operator::{prefix_of, step_of};
use std::alloc::Global;
use text_base::{Bytes, NoMemory};

// The tree of a constant.
#[tactic(auto, using(php_syntax::proofs::Views::views))]
fn constant_of(alloc: Global, word: Keyword) -> Result<Option<Expr>, NoMemory>
    ensures { IfOk result (λ found. tree_shown found ≡ form.constant_of word) }
{
    match word {
        Keyword::True => Ok(Some(Expr::Flag(true))),
        Keyword::False => Ok(Some(Expr::Flag(false))),
        Keyword::Null => Ok(Some(Expr::Null)),
        Keyword::PhpEol => Ok(Some(Expr::Text(Bytes::from_slice(alloc, b"\n")?))),
        Keyword::PhpIntMax => Ok(Some(Expr::Int(9_223_372_036_854_775_807))),
        Keyword::PhpIntMin => Ok(Some(Expr::Int(-9_223_372_036_854_775_808))),
        _ => Ok(None),
    }
}

// The tokens from the first that nothing goes on with where no bracket stands behind a keyword: the
// keyword itself where it begins no operand.
fn without_bracket<'a>(word: Keyword, rest: &'a [Token], from: &'a [Token]) -> &'a [Token] {
    match word {
        Keyword::Isset | Keyword::Empty | Keyword::Array => rest,
        _ => from,
    }
}

impl Reader {
    // A keyword that begins an operand.
    fn keyword<'a>(
        &mut self,
        word: Keyword,
        rest: &'a [Token],
        from: &'a [Token],
    ) -> Result<Step<'a>, NoMemory>
        ensures { Moves result self.new
            (machine.keyword_move word self.old (terminals_of rest.now)) }
    {
        match behind_sign(rest, Sign::OpenParen) {
            None => Ok(Step::Stuck(without_bracket(word, rest, from))),
            Some(behind) => match word {
                Keyword::Isset => self.open(Frame::Isset(0), behind),
                Keyword::Empty => self.open(Frame::Empty, behind),
                Keyword::Array => self.array(Brackets::Round, behind),
                _ => Ok(Step::Stuck(from)),
            },
        }
    }

    // A keyword: a constant, or what begins an operand.
    fn word<'a>(
        &mut self,
        word: Keyword,
        rest: &'a [Token],
        from: &'a [Token],
    ) -> Result<Step<'a>, NoMemory>
        ensures { Moves result self.new
            (machine.word_move (form.constant_of word) word self.old (terminals_of rest.now)) }
    {
        match constant_of(self.alloc, word)? {
            Some(tree) => Ok(Step::Go(Focus::Unary, rest, Actions::One(Action::Leaf(tree)))),
            None => self.keyword(word, rest, from),
        }
    }

    // The name of a function, which brackets have to follow.
    fn call<'a>(&mut self, name: &Bytes, rest: &'a [Token]) -> Result<Step<'a>, NoMemory>
        ensures { Moves result self.new
            (machine.call_move name.now self.old (terminals_of rest.now)) }
    {
        let name = name.copy(self.alloc)?;
        match behind_sign(rest, Sign::OpenParen) {
            None => Ok(Step::Stuck(rest)),
            Some(behind) => match behind_sign(behind, Sign::CloseParen) {
                Some(last) => Ok(Step::Go(
                    Focus::Subscripted,
                    last,
                    Actions::One(Action::Call(name, 0)),
                )),
                None => self.open(Frame::Argument { name, count: 0 }, behind),
            },
        }
    }

    // `++` or `--`, which a variable has to follow.
    fn step<'a>(&mut self, up: bool, rest: &'a [Token]) -> Result<Step<'a>, NoMemory>
        ensures { Moves result self.new (machine.step_move up self.old (terminals_of rest.now)) }
    {
        let Some((name, behind)) = variable_at(rest) else {
            return Ok(Step::Stuck(rest));
        };
        let name = name.copy(self.alloc)?;
        let action = Action::Step {
            name,
            up,
            before: true,
        };
        Ok(Step::Go(Focus::Unary, behind, Actions::One(action)))
    }

    // A bracket.
    fn bracket<'a>(
        &mut self,
        sign: Sign,
        rest: &'a [Token],
        from: &'a [Token],
    ) -> Result<Step<'a>, NoMemory>
        ensures { Moves result self.new
            (machine.bracket_move sign self.old (terminals_of rest.now)) }
    {
        match sign {
            Sign::OpenParen => self.open(Frame::Parens, rest),
            Sign::OpenBracket => self.array(Brackets::Square, rest),
            _ => Ok(Step::Stuck(from)),
        }
    }

    // A sign where an operand begins.
    fn sign<'a>(
        &mut self,
        sign: Sign,
        rest: &'a [Token],
        from: &'a [Token],
    ) -> Result<Step<'a>, NoMemory>
        ensures { Moves result self.new
            (machine.sign_move (operator.prefix_operator sign)
            (operator.step_sign sign) sign self.old (terminals_of rest.now)) }
    {
        match prefix_of(sign) {
            Some(prefix) => self.open(Frame::Prefix(prefix), rest),
            None => match step_of(sign) {
                Some(up) => self.step(up, rest),
                None => self.bracket(sign, rest, from),
            },
        }
    }

    // Where an operand begins with this terminal.
    #[tactic(auto, using(php_syntax::proofs::Views::views))]
    fn begin_with<'a>(
        &mut self,
        head: Head<'a>,
        rest: &'a [Token],
        from: &'a [Token],
    ) -> Result<Step<'a>, NoMemory>
        ensures { Moves result self.new
            (machine.begin_move self.old (terminal_at head.entry ∷ terminals_of rest.now)) }
    {
        match head {
            Head::Inline(_) => Ok(Step::Stuck(from)),
            Head::Var(name) => {
                let name = name.copy(self.alloc)?;
                let focus = Focus::Place {
                    name,
                    keys: 0,
                    gap: false,
                };
                Ok(Step::Go(focus, rest, Actions::Nothing))
            }
            Head::Word(word) => self.word(word, rest, from),
            Head::Name(name) => self.call(name, rest),
            Head::Int(number) => Ok(Step::Go(
                Focus::Unary,
                rest,
                Actions::One(Action::Leaf(Expr::Int(number))),
            )),
            Head::Text(text) => {
                let text = text.copy(self.alloc)?;
                Ok(Step::Go(
                    Focus::Unary,
                    rest,
                    Actions::One(Action::Leaf(Expr::Text(text))),
                ))
            }
            Head::Template(parts) => Ok(Step::Go(Focus::Unary, rest, Actions::Template(parts))),
            Head::Sign(sign) => self.sign(sign, rest, from),
        }
    }

    /// Where an expression or an operand begins.
    pub(crate) fn begin<'a>(&mut self, rest: &'a [Token]) -> Result<Step<'a>, NoMemory>
        ensures { Moves result self.new (machine.begin_move self.old (terminals_of rest.now)) }
    {
        match head_at(rest) {
            None => Ok(Step::Stuck(rest)),
            Some((head, behind)) => self.begin_with(head, behind, rest),
        }
    }
}
