//! The moves behind a variable and its keys.

ghost use Rattle.std.specs.Prelude.{◌≡◌, ◌∷◌, ◌+◌, Some, None};
ghost use Rattle.php_syntax.specs.declared.token.Sign.TheVariants as signs;
ghost use Rattle.script_grammar.specs.Operators as operator;
ghost use Rattle.script_grammar.specs.Terminals.{sign_terminal};
ghost use Rattle.expr_machine.specs.Machine as machine;
ghost use Rattle.expr_parser.specs.Heads.{terminals_of};
ghost use Rattle.expr_parser.specs.Outcomes.{Moves};
ghost use Rattle.expr_parser.specs.Places.{operand_from, key_from, updated_from, placed_from, place_from};

use crate::head::{behind_sign, sign_at};
use crate::reader::Reader;
use crate::step::{Step, is_zero, one_more};
use expr_builder::action::{Action, Actions};
use expr_machine::frame::{Focus, Frame};
use php_syntax::token::{Sign, Token};
use php_syntax::tree::UpdateSign;
use script_grammar::operator::{step_of, update_of};
use text_base::{Bytes, NoMemory};

/// A variable and how many keys were read behind it, of which one is left out where there is a gap.
#[derive(Drop)]
pub(crate) struct Place {
    pub(crate) name: Bytes,
    pub(crate) keys: usize,
    pub(crate) gap: bool,
}

impl Reader {
    // A variable with keys that nothing goes on with.
    fn operand<'a>(&mut self, place: Place, rest: &'a [Token]) -> Result<Step<'a>, NoMemory>
        ensures { Moves result self.new (operand_from place self.old (terminals_of rest.now)) }
    {
        let Place { name, keys, gap } = place;
        if gap {
            return Ok(Step::Stuck(rest));
        }
        Ok(Step::Go(Focus::Unary, rest, Actions::One(Action::Read(name, keys))))
    }

    // `[` behind a variable: a key, or none.
    fn key<'a>(&mut self, place: Place, rest: &'a [Token]) -> Result<Step<'a>, NoMemory>
        ensures { Moves result self.new (key_from place self.old (terminals_of rest.now)) }
    {
        let Place { name, keys, gap } = place;
        match behind_sign(rest, Sign::CloseBracket) {
            Some(behind) => {
                let focus = Focus::Place {
                    name,
                    keys: one_more(keys)?,
                    gap: true,
                };
                Ok(Step::Go(focus, behind, Actions::One(Action::Absent)))
            }
            None => self.open(Frame::Key { name, keys, gap }, rest),
        }
    }

    // An assignment that reads its target, where a whole expression is wanted.
    fn update<'a>(
        &mut self,
        update: UpdateSign,
        sign: Sign,
        place: Place,
        rest: &'a [Token],
        behind: &'a [Token],
    ) -> Result<Step<'a>, NoMemory>
        requires { terminals_of rest.now ≡ sign_terminal sign ∷ terminals_of behind.now }
        ensures { Moves result self.new
            (updated_from (Some update) (operator.step_sign sign) place self.old sign
            (terminals_of behind.now)) }
    {
        if self.wants_whole() {
            let Place { name, keys, .. } = place;
            let frame = Frame::Update {
                sign: update,
                name,
                keys,
            };
            return self.open(frame, behind);
        }
        self.operand(place, rest)
    }

    // A step up or down behind a variable without keys.
    fn step_behind<'a>(
        &mut self,
        up: bool,
        sign: Sign,
        place: Place,
        rest: &'a [Token],
        behind: &'a [Token],
    ) -> Result<Step<'a>, NoMemory>
        requires { terminals_of rest.now ≡ sign_terminal sign ∷ terminals_of behind.now }
        ensures { Moves result self.new
            (updated_from None (Some up) place self.old sign (terminals_of behind.now)) }
    {
        if is_zero(place.keys) {
            let action = Action::Step {
                name: place.name,
                up,
                before: false,
            };
            return Ok(Step::Go(Focus::Unary, behind, Actions::One(action)));
        }
        self.operand(place, rest)
    }

    // An assignment that reads its target, or a step, where the sign is one.
    fn updated<'a>(
        &mut self,
        sign: Sign,
        place: Place,
        rest: &'a [Token],
        behind: &'a [Token],
    ) -> Result<Step<'a>, NoMemory>
        requires { terminals_of rest.now ≡ sign_terminal sign ∷ terminals_of behind.now }
        ensures { Moves result self.new
            (updated_from (operator.update_sign sign) (operator.step_sign sign) place self.old sign
            (terminals_of behind.now)) }
    {
        match update_of(sign) {
            Some(update) => self.update(update, sign, place, rest, behind),
            None => match step_of(sign) {
                Some(up) => self.step_behind(up, sign, place, rest, behind),
                None => self.operand(place, rest),
            },
        }
    }

    // An assignment, where a whole expression is wanted.
    fn assign<'a>(
        &mut self,
        place: Place,
        rest: &'a [Token],
        behind: &'a [Token],
    ) -> Result<Step<'a>, NoMemory>
        requires { terminals_of rest.now ≡ sign_terminal signs.Assign ∷ terminals_of behind.now }
        ensures { Moves result self.new
            (placed_from place self.old signs.Assign (terminals_of behind.now)) }
    {
        if self.wants_whole() {
            let Place { name, keys, .. } = place;
            return self.open(Frame::Assign { name, keys }, behind);
        }
        self.operand(place, rest)
    }

    /// Behind a variable and its keys.
    pub(crate) fn place<'a>(
        &mut self,
        place: Place,
        rest: &'a [Token],
    ) -> Result<Step<'a>, NoMemory>
        ensures { Moves result self.new (place_from place self.old (terminals_of rest.now)) }
    {
        match sign_at(rest) {
            None => self.operand(place, rest),
            Some((sign, behind)) => match sign {
                Sign::OpenBracket => self.key(place, behind),
                Sign::Assign => self.assign(place, rest, behind),
                _ => self.updated(sign, place, rest, behind),
            },
        }
    }
}
