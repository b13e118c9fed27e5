//! Names, variables and numbers.

ghost use Rattle.std.specs.Prelude.{◌≡◌, length, IfOk, IfSome};
ghost use Rattle.lexical_grammar.specs.Words as spec;
ghost use Rattle.php_lexer.specs.View.{Reads, ReadsWithin};

use crate::scan::{begins, behind, front, name_length};
use crate::step::{Mode, Step};
use php_syntax::token::TokenKind;
use std::alloc::Global;
use text_base::{Bytes, NoMemory};

/// A name.
#[tactic(auto, unfolding(lexical_grammar::specs::Words::name_step))]
pub fn name_step(alloc: Global, bytes: &[u8]) -> Result<Option<Step>, NoMemory>
    ensures value { Reads result (spec.name_step bytes.now) }
    ensures within { ReadsWithin result (length bytes.now) }
{
    let n = name_length(bytes);
    if n == 0 {
        return Ok(None);
    }
    let name = Bytes::from_slice(alloc, front(bytes, n))?;
    Ok(Some(Step::Goes(Some(TokenKind::Name(name)), n, Mode::Inside)))
}

/// `$` and a name.
#[tactic(auto, unfolding(lexical_grammar::specs::Words::variable_step))]
pub fn variable_step(alloc: Global, bytes: &[u8]) -> Result<Option<Step>, NoMemory>
    ensures value { Reads result (spec.variable_step bytes.now) }
    ensures within { ReadsWithin result (length bytes.now) }
{
    let inner = behind(bytes, 1);
    let n = name_length(inner);
    if begins(bytes, b"$") && 0 < n {
        let name = Bytes::from_slice(alloc, front(inner, n))?;
        Ok(Some(Step::Goes(Some(TokenKind::Var(name)), 1 + n, Mode::Inside)))
    } else {
        Ok(None)
    }
}
