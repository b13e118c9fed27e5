//! The further arguments of `htmlspecialchars` that say what is so anyway.

ghost use Rattle.std.specs.Prelude.{◌≡◌, ◌==◌, ◌&&◌, Some, None, MatchOption, codes, if◌then◌else◌};
ghost use Rattle.script_grammar.specs.Expressions as form;
ghost use Rattle.script_grammar.specs.Terminals.{same_bytes};
ghost use Rattle.expr_machine.specs.Machine as machine;
ghost use Rattle.expr_parser.specs.Heads.{terminals_of, quotes_end};

use crate::head::{behind_sign, name_at, text_at};
use php_syntax::token::{Sign, Token};
use text_base::Bytes;

// What stands behind the name of a set of characters, if that is UTF-8.
fn behind_charset<'a>(text: &Bytes, rest: &'a [Token]) -> Option<&'a [Token]>
    ensures { MatchOption result
        (machine.behind_charset text.now (terminals_of rest.now) ≡ None)
        (λ r. machine.behind_charset text.now (terminals_of rest.now) ≡ Some (terminals_of r.now)) }
{
    if text.as_slice().eq_ignore_ascii_case(b"UTF-8") {
        return Some(rest);
    }
    None
}

// What stands behind `)` or `, 'UTF-8' )`, if that stands next.
fn behind_end<'a>(rest: &'a [Token]) -> Option<&'a [Token]>
    ensures { MatchOption result
        (quotes_end (terminals_of rest.now) ≡ None)
        (λ r. quotes_end (terminals_of rest.now) ≡ Some (terminals_of r.now)) }
{
    if let Some(behind) = behind_sign(rest, Sign::CloseParen) {
        return Some(behind);
    }
    match behind_sign(rest, Sign::Comma) {
        None => None,
        Some(second) => match text_at(second) {
            None => None,
            Some((text, third)) => match behind_sign(third, Sign::CloseParen) {
                None => None,
                Some(last) => behind_charset(text, last),
            },
        },
    }
}

// The same where a name stands before it.
fn behind_named<'a>(name: &Bytes, rest: &'a [Token]) -> Option<&'a [Token]>
    ensures { MatchOption result
        ((if same_bytes name.now (codes "ENT_QUOTES") then quotes_end
        (terminals_of rest.now) else None) ≡ None)
        (λ r. (if same_bytes name.now (codes "ENT_QUOTES") then quotes_end
        (terminals_of rest.now) else None) ≡ Some (terminals_of r.now)) }
{
    if name.as_slice() == b"ENT_QUOTES".as_slice() {
        return behind_end(rest);
    }
    None
}

// What stands behind the further arguments that say what is so anyway, if they stand next.
fn behind_quotes<'a>(rest: &'a [Token]) -> Option<&'a [Token]>
    ensures { MatchOption result
        (machine.behind_quotes (terminals_of rest.now) ≡ None)
        (λ r. machine.behind_quotes (terminals_of rest.now) ≡ Some (terminals_of r.now)) }
{
    match behind_sign(rest, Sign::Comma) {
        None => None,
        Some(second) => match name_at(second) {
            None => None,
            Some((name, third)) => behind_named(name, third),
        },
    }
}

/// The same behind the first argument of `htmlspecialchars`.
pub(crate) fn behind_escape<'a>(
    name: &Bytes,
    count: usize,
    rest: &'a [Token],
) -> Option<&'a [Token]>
    ensures { MatchOption result
        ((if form.is_escape name.now && count == 0 then machine.behind_quotes
        (terminals_of rest.now) else None) ≡ None)
        (λ r. (if form.is_escape name.now && count == 0 then machine.behind_quotes
        (terminals_of rest.now) else None) ≡ Some (terminals_of r.now)) }
{
    if !name.as_slice().eq_ignore_ascii_case(b"htmlspecialchars") {
        return None;
    }
    if count == 0 {
        return behind_quotes(rest);
    }
    None
}
