//! What else stands at the head of tokens.

ghost use Rattle.std.specs.Prelude.{◌≡◌, ◌≢◌, ◌∷◌, ℕ, ℤ, List, MatchOption};
ghost use Rattle.script_grammar.specs.Terminals.{Terminal, inline_terminal, int_terminal, word_terminal};
ghost use Rattle.script_grammar.specs.declared.keyword.Keyword as keywords;
ghost use Rattle.expr_parser.specs.Heads.{terminals_of};

use expr_parser::head::{Head, head_at};
use php_syntax::token::Token;
use script_grammar::keyword::Keyword;
use text_base::Bytes;

/// The keyword that stands first, and the tokens behind it.
pub(crate) fn word_at<'a>(rest: &'a [Token]) -> Option<(Keyword, &'a [Token])>
    ensures { MatchOption result
        ((k : keywords.Keyword) (r : List Terminal) → terminals_of rest.now ≢ word_terminal k ∷ r)
        (λ found. terminals_of rest.now ≡ word_terminal found.0 ∷ terminals_of found.1.now) }
{
    match head_at(rest) {
        Some((Head::Word(word), behind)) => Some((word, behind)),
        _ => None,
    }
}

/// The tokens behind this keyword, if it stands first.
pub(crate) fn behind_word<'a>(rest: &'a [Token], word: Keyword) -> Option<&'a [Token]>
    ensures { MatchOption result
        ((r : List Terminal) → terminals_of rest.now ≢ word_terminal word ∷ r)
        (λ behind. terminals_of rest.now ≡ word_terminal word ∷ terminals_of behind.now) }
{
    match head_at(rest) {
        Some((Head::Word(found), behind)) => {
            if found == word {
                return Some(behind);
            }
            None
        }
        _ => None,
    }
}

/// The bytes outside PHP that stand first, and the tokens behind them.
pub(crate) fn inline_at<'a>(rest: &'a [Token]) -> Option<(&'a Bytes, &'a [Token])>
    ensures { MatchOption result
        ((t : List ℕ) (r : List Terminal) → terminals_of rest.now ≢ inline_terminal t ∷ r)
        (λ found. terminals_of rest.now ≡ inline_terminal found.0.now ∷ terminals_of found.1.now) }
{
    match head_at(rest) {
        Some((Head::Inline(text), behind)) => Some((text, behind)),
        _ => None,
    }
}

/// The number that stands first, and the tokens behind it.
pub(crate) fn int_at<'a>(rest: &'a [Token]) -> Option<(i64, &'a [Token])>
    ensures { MatchOption result
        ((z : ℤ) (r : List Terminal) → terminals_of rest.now ≢ int_terminal z ∷ r)
        (λ found. terminals_of rest.now ≡ int_terminal found.0 ∷ terminals_of found.1.now) }
{
    match head_at(rest) {
        Some((Head::Int(number), behind)) => Some((number, behind)),
        _ => None,
    }
}
