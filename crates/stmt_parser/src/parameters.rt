//! Parameters and their defaults.

ghost use Rattle.std.specs.Prelude.{◌≡◌, Some, None, [], ◌∷◌, MatchOption};
ghost use Rattle.php_syntax.specs.Trees.{no_expr};
ghost use Rattle.expr_parser.specs.Heads.{terminals_of};
ghost use Rattle.stmt_machine.specs.declared.frame.Focus.TheVariants as focus;
ghost use Rattle.stmt_machine.specs.Actions.{parameter_action};
ghost use Rattle.stmt_machine.specs.Machine as machine;
ghost use Rattle.stmt_parser.specs.Literals.{literal_tree};
ghost use Rattle.stmt_parser.specs.Nexts.{default_at, plain_at, default_next};
ghost use Rattle.stmt_parser.specs.Outcomes.{Moves};

use crate::heads::{int_at, word_at};
use crate::literal::{Literal, tree_of};
use crate::reader::Reader;
use crate::step::{Step, gone};
use expr_parser::head::{behind_sign, head_at, text_at, variable_at};
use php_syntax::token::{Sign, Token};
use script_grammar::keyword::Keyword;
use stmt_machine::frame::Focus;
use text_base::{Bytes, NoMemory};

// The literal of a word, if it is one.
fn word_literal<'a>(word: Keyword) -> Option<Literal<'a>>
    ensures { MatchOption result (machine.literal_word word ≡ None)
        (λ literal. machine.literal_word word ≡ Some (literal_tree literal)) }
{
    match word {
        Keyword::True => Some(Literal::Flag(true)),
        Keyword::False => Some(Literal::Flag(false)),
        Keyword::Null => Some(Literal::Null),
        _ => None,
    }
}

// The literal that stands first, without a sign, and the tokens behind it.
fn plain_literal<'a>(rest: &'a [Token]) -> Option<(Literal<'a>, &'a [Token])>
    ensures { MatchOption result
        (plain_at (terminals_of rest.now) ≡ None)
        (λ found. plain_at (terminals_of rest.now)
        ≡ Some (literal_tree found.0, terminals_of found.1.now)) }
{
    if let Some((number, behind)) = int_at(rest) {
        return Some((Literal::Int(number), behind));
    }
    if let Some((text, behind)) = text_at(rest) {
        return Some((Literal::Text(text), behind));
    }
    let Some((word, behind)) = word_at(rest) else {
        return None;
    };
    let Some(literal) = word_literal(word) else {
        return None;
    };
    Some((literal, behind))
}

// The literal that stands first, and the tokens behind it.
fn literal_at<'a>(rest: &'a [Token]) -> Option<(Literal<'a>, &'a [Token])>
    ensures { MatchOption result
        (default_at (terminals_of rest.now) ≡ None)
        (λ found. default_at (terminals_of rest.now)
        ≡ Some (literal_tree found.0, terminals_of found.1.now)) }
{
    let Some(behind) = behind_sign(rest, Sign::Minus) else {
        return plain_literal(rest);
    };
    let Some((number, last)) = int_at(behind) else {
        return None;
    };
    Some((Literal::Minus(number), last))
}

impl Reader {
    // A parameter with a default, which stands here.
    fn default_step<'a>(&mut self, name: &Bytes, rest: &'a [Token]) -> Result<Step<'a>, NoMemory>
        ensures { Moves (default_next name.now self.old.frames (default_at (terminals_of rest.now)))
            self.old result self.new }
    {
        let Some((literal, behind)) = literal_at(rest) else {
            return Ok(Step::Stuck(rest));
        };
        let made = tree_of(self.alloc, literal)?;
        let done = self
            .maker
            .parameter(self.alloc, name, Some(made.0), made.1)?;
        Ok(gone(done, Focus::BehindParameter, behind))
    }

    // A parameter without a default.
    fn plain_step<'a>(&mut self, name: &Bytes, rest: &'a [Token]) -> Result<Step<'a>, NoMemory>
        ensures { Moves (machine.moves focus.BehindParameter self.old.frames (terminals_of rest.now)
            (parameter_action name.now no_expr ∷ [])) self.old result self.new }
    {
        let done = self.maker.parameter(self.alloc, name, None, 0)?;
        Ok(gone(done, Focus::BehindParameter, rest))
    }

    /// A parameter.
    pub(crate) fn parameter_step<'a>(&mut self, rest: &'a [Token]) -> Result<Step<'a>, NoMemory>
        ensures { Moves (machine.parameter_move self.old.frames (terminals_of rest.now))
            self.old result self.new }
    {
        let Some((name, behind)) = variable_at(rest) else {
            return Ok(Step::Stuck(rest));
        };
        let Some(default) = behind_sign(behind, Sign::Assign) else {
            return self.plain_step(name, behind);
        };
        match head_at(default) {
            None => self.plain_step(name, behind),
            Some(_) => self.default_step(name, default),
        }
    }
}
