//! How many brackets are open at once.

ghost use Rattle.std.specs.Prelude.{◌≡◌, ◌<◌, ◌≤◌, MatchOption};
ghost use Rattle.php_syntax.specs.Tokens.{plain_kind};
ghost use Rattle.script_grammar.specs.Terminals.{terminal_of};
ghost use Rattle.script_grammar.specs.Grammar.{open_after, open_after_sign, most_open};
ghost use Rattle.expr_parser.specs.Heads.{terminals_of};

use expr_parser::head::{kind_at, sign_of};
use php_syntax::token::{Sign, Token, TokenKind};
use text_base::limits::HEIGHT_LIMIT;

// How many are open behind a sign.
fn behind_sign(count: u32, sign: Sign) -> u32
    requires { count ≤ HEIGHT_LIMIT }
    ensures { result ≡ open_after_sign count sign }
{
    match sign {
        Sign::OpenParen => count + 1,
        Sign::OpenBracket => count + 1,
        Sign::OpenBrace => count + 1,
        Sign::CloseParen => count.saturating_sub(1),
        Sign::CloseBracket => count.saturating_sub(1),
        Sign::CloseBrace => count.saturating_sub(1),
        _ => count,
    }
}

// How many are open behind a token.
fn behind(count: u32, kind: &TokenKind) -> u32
    requires { count ≤ HEIGHT_LIMIT }
    ensures { result ≡ open_after count (terminal_of (plain_kind kind.now)) }
{
    match sign_of(kind) {
        Some(sign) => behind_sign(count, sign),
        None => count,
    }
}

/// Where one bracket too many is opened, if more than 200 are open at once.
pub(crate) fn too_many(tokens: &[Token]) -> Option<u32>
    ensures { MatchOption result
        (most_open 0 (terminals_of tokens.now) ≤ HEIGHT_LIMIT)
        (λ _. HEIGHT_LIMIT < most_open 0 (terminals_of tokens.now)) }
{
    let mut rest = tokens;
    let mut count = 0;
    'tokens: loop {
        match kind_at(rest) {
            None => return None,
            Some((kind, more)) => {
                count = behind(count, kind);
                if count > HEIGHT_LIMIT {
                    return Some(place(rest));
                }
                rest = more;
            }
        }
    }
}

// Where the first of these tokens stands; 0 where there is none.
fn place(tokens: &[Token]) -> u32 {
    match tokens.first() {
        None => 0,
        Some(token) => token.at,
    }
}
