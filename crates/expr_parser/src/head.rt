//! What stands at the head of tokens.

ghost use Rattle.std.specs.Prelude.{◌≡◌, ◌≢◌, ◌∷◌, [], ℕ, List, MatchOption};
ghost use Rattle.php_syntax.specs.Tokens.{plain_kind};
ghost use Rattle.script_grammar.specs.Terminals.{Terminal, terminal_of, sign_terminal, name_terminal, text_terminal, variable_terminal};
ghost use Rattle.php_syntax.specs.declared.token.Sign as signs;
ghost use Rattle.expr_machine.specs.Machine as machine;
ghost use Rattle.php_syntax.specs.declared.token.TokenKind.TheVariants as token;
ghost use Rattle.expr_parser.specs.Heads.{terminals_of, terminal_at};

use php_syntax::token::{Part, Sign, Token, TokenKind};
use script_grammar::keyword::{Keyword, keyword_named};
use text_base::Bytes;

/// What a token is to the grammar.
#[derive(Debug, Drop)]
pub enum Head<'a> {
    /// The bytes outside PHP.
    Inline(&'a Bytes),
    /// A variable, by its name without `$`.
    Var(&'a Bytes),
    /// A keyword.
    Word(Keyword),
    /// A name that is no keyword.
    Name(&'a Bytes),
    /// An integer literal.
    Int(i64),
    /// A text literal.
    Text(&'a Bytes),
    /// The parts of a text in which a variable is read.
    Template(&'a [Part]),
    /// A sign.
    Sign(Sign),
}

// A name, or the keyword that it spells.
fn head_of_name(name: &Bytes) -> Head
    ensures { terminal_at result ≡ terminal_of (plain_kind (token.Name name.now)) }
{
    match keyword_named(name.as_slice()) {
        Some(word) => Head::Word(word),
        None => Head::Name(name),
    }
}

// What a token is to the grammar.
fn head_of(kind: &TokenKind) -> Head
    ensures { terminal_at result ≡ terminal_of (plain_kind kind.now) }
{
    match kind {
        TokenKind::Inline(text) => Head::Inline(text),
        TokenKind::Var(name) => Head::Var(name),
        TokenKind::Name(name) => head_of_name(name),
        TokenKind::Int(number) => Head::Int(*number),
        TokenKind::Str(text) => Head::Text(text),
        TokenKind::Template(parts) => Head::Template(parts.as_slice()),
        TokenKind::Sign(sign) => Head::Sign(*sign),
    }
}

/// The first terminal of tokens, and the tokens behind it.
#[tactic(auto, unfolding(crate::specs::Heads::terminals_of))]
pub fn head_at<'a>(rest: &'a [Token]) -> Option<(Head<'a>, &'a [Token])>
    ensures { MatchOption result
        (terminals_of rest.now ≡ [])
        (λ found. terminals_of rest.now ≡ terminal_at found.0 ∷ terminals_of found.1.now) }
{
    match rest {
        [] => None,
        [token, behind @ ..] => Some((head_of(&token.kind), behind)),
    }
}

/// The kind of the first token, and the tokens behind it. It asks for no keyword.
#[tactic(auto, unfolding(crate::specs::Heads::terminals_of))]
pub fn kind_at<'a>(rest: &'a [Token]) -> Option<(&'a TokenKind, &'a [Token])>
    ensures { MatchOption result
        (terminals_of rest.now ≡ [])
        (λ found. terminals_of rest.now
        ≡ terminal_of (plain_kind found.0.now) ∷ terminals_of found.1.now) }
{
    match rest {
        [] => None,
        [token, behind @ ..] => Some((&token.kind, behind)),
    }
}

/// The sign that a token is, if it is one.
pub fn sign_of(kind: &TokenKind) -> Option<Sign>
    ensures { MatchOption result
        ((s : signs.Sign) → terminal_of (plain_kind kind.now) ≢ sign_terminal s)
        (λ sign. terminal_of (plain_kind kind.now) ≡ sign_terminal sign) }
{
    match kind {
        TokenKind::Sign(sign) => Some(*sign),
        _ => None,
    }
}

// The text that a token is, if it is one.
fn text_of(kind: &TokenKind) -> Option<&Bytes>
    ensures { MatchOption result
        ((t : List ℕ) → terminal_of (plain_kind kind.now) ≢ text_terminal t)
        (λ text. terminal_of (plain_kind kind.now) ≡ text_terminal text.now) }
{
    match kind {
        TokenKind::Str(text) => Some(text),
        _ => None,
    }
}

// The variable that a token is, if it is one.
fn variable_of(kind: &TokenKind) -> Option<&Bytes>
    ensures { MatchOption result
        ((x : List ℕ) → terminal_of (plain_kind kind.now) ≢ variable_terminal x)
        (λ name. terminal_of (plain_kind kind.now) ≡ variable_terminal name.now) }
{
    match kind {
        TokenKind::Var(name) => Some(name),
        _ => None,
    }
}

/// The sign that stands first, and the tokens behind it.
#[tactic(auto, unfolding(crate::specs::Heads::terminals_of))]
pub fn sign_at<'a>(rest: &'a [Token]) -> Option<(Sign, &'a [Token])>
    ensures { MatchOption result
        ((s : signs.Sign) (r : List Terminal) → terminals_of rest.now ≢ sign_terminal s ∷ r)
        (λ found. terminals_of rest.now ≡ sign_terminal found.0 ∷ terminals_of found.1.now) }
{
    match rest {
        [] => None,
        [token, behind @ ..] => match sign_of(&token.kind) {
            None => None,
            Some(sign) => Some((sign, behind)),
        },
    }
}

/// The tokens behind this sign, if it stands first.
pub fn behind_sign<'a>(rest: &'a [Token], sign: Sign) -> Option<&'a [Token]>
    ensures { MatchOption result
        ((r : List Terminal) → terminals_of rest.now ≢ sign_terminal sign ∷ r)
        (λ behind. terminals_of rest.now ≡ sign_terminal sign ∷ terminals_of behind.now) }
{
    match sign_at(rest) {
        None => None,
        Some((found, behind)) => {
            if found == sign {
                return Some(behind);
            }
            None
        }
    }
}

/// The name that stands first, which is no keyword, and the tokens behind it.
pub fn name_at<'a>(rest: &'a [Token]) -> Option<(&'a Bytes, &'a [Token])>
    ensures { MatchOption result
        ((w : List ℕ) (r : List Terminal) → terminals_of rest.now ≢ name_terminal w ∷ r)
        (λ found. terminals_of rest.now ≡ name_terminal found.0.now ∷ terminals_of found.1.now) }
{
    match head_at(rest) {
        Some((Head::Name(name), behind)) => Some((name, behind)),
        _ => None,
    }
}

/// The text that stands first, and the tokens behind it.
#[tactic(auto, unfolding(crate::specs::Heads::terminals_of))]
pub fn text_at<'a>(rest: &'a [Token]) -> Option<(&'a Bytes, &'a [Token])>
    ensures { MatchOption result
        ((t : List ℕ) (r : List Terminal) → terminals_of rest.now ≢ text_terminal t ∷ r)
        (λ found. terminals_of rest.now ≡ text_terminal found.0.now ∷ terminals_of found.1.now) }
{
    match rest {
        [] => None,
        [token, behind @ ..] => match text_of(&token.kind) {
            None => None,
            Some(text) => Some((text, behind)),
        },
    }
}

/// The variable that stands first, and the tokens behind it.
#[tactic(auto, unfolding(crate::specs::Heads::terminals_of))]
pub fn variable_at<'a>(rest: &'a [Token]) -> Option<(&'a Bytes, &'a [Token])>
    ensures { MatchOption result
        ((x : List ℕ) (r : List Terminal) → terminals_of rest.now ≢ variable_terminal x ∷ r)
        (λ found. terminals_of rest.now
        ≡ variable_terminal found.0.now ∷ terminals_of found.1.now) }
{
    match rest {
        [] => None,
        [token, behind @ ..] => match variable_of(&token.kind) {
            None => None,
            Some(name) => Some((name, behind)),
        },
    }
}

/// The tokens behind the first one.
#[tactic(auto, unfolding(crate::specs::Heads::terminals_of))]
pub(crate) fn behind_first(rest: &[Token]) -> &[Token]
    ensures { terminals_of result.now ≡ machine.behind (terminals_of rest.now) }
{
    match rest {
        [] => rest,
        [_, behind @ ..] => behind,
    }
}
