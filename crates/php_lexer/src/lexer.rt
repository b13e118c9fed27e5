//! A file to its tokens.

ghost use Rattle.std.specs.Prelude.{◌≡◌, ◌≤◌, ◌<◌, ◌^◌, ℕ, List, length, option_map, OnOk, IfOk, IfErr, MatchResult, Err};
ghost use Rattle.php_syntax.specs.Tokens.{PlainToken, plain_kind, plain_tokens};
ghost use Rattle.lexical_grammar.specs.declared.fault.LexicalFault.{LexicalFault};
ghost use Rattle.lexical_grammar.specs.Cuts.{Cuts, Breaks};
ghost use Rattle.php_lexer.specs.Refusals.{IsShort, IsCauseOf, IsRefused};
ghost use Rattle.php_lexer.specs.View.{tokens_with};
ghost use Rattle.php_lexer.specs.declared.refusal.LexRefusal.TheVariants as refusals;

use crate::refusal::LexRefusal;
use crate::scan::behind;
use crate::step::{Mode, Step};
use crate::steps::next_step;
use php_syntax::token::{Token, TokenKind};
use std::alloc::Global;
use text_base::NoMemory;
use text_base::limits::FILE_LIMIT;

// The token that a step gives, if it gives one, behind those before it.
fn put_token(tokens: &mut Vec<Token>, kind: Option<TokenKind>, at: usize) -> Result<(), NoMemory>
    requires { at < 2 ^ 32 }
    ensures { OnOk result
        (plain_tokens tokens.new.items
        ≡ tokens_with (plain_tokens tokens.old.items) (option_map plain_kind kind) at) }
{
    if let Some(kind) = kind {
        tokens.push(Token {
            kind,
            at: at as u32,
        })?;
    }
    Ok(())
}

/// The tokens of a file, or the first place from the left at which it breaks the lexical grammar.
/// Takes time linear in the length of the file.
pub fn lex(alloc: Global, file: &[u8]) -> Result<Vec<Token>, LexRefusal>
    // The tokens are those that the file is cut into.
    ensures tokens { IfOk result
        (λ tokens. IsShort file.now × Cuts file.now (plain_tokens tokens.items)) }

    // A refusal has its cause.
    ensures refused { IfErr result (IsCauseOf file.now) }

    // A file that is cut into tokens is refused for want of memory alone.
    ensures only { (tokens : List PlainToken) → IsShort file.now → Cuts file.now tokens →
        MatchResult result (λ found. plain_tokens found.items ≡ tokens) (λ e. e ≡ refusals.Memory) }

    // A file that breaks the lexical grammar is refused so, and one that is too long before all
    // else.
    ensures faults { (fault : LexicalFault) (at : ℕ) → IsShort file.now → Breaks file.now fault at →
        IsRefused result (refusals.Breaks fault at) }
    ensures long { FILE_LIMIT < length file.now → result
        ≡ Err (refusals.TooLong (length file.now)) }
{
    if file.len() > FILE_LIMIT {
        return Err(LexRefusal::TooLong {
            len: file.len() as u64,
        });
    }
    let mut tokens = Vec::new(alloc);
    let mut mode = Mode::Outside;
    let mut at = 0;
    'steps: while at < file.len() {
        match next_step(alloc, mode, behind(file, at))? {
            Step::Refuses(fault, n) => {
                return Err(LexRefusal::Breaks {
                    fault,
                    at: (at + n) as u32,
                });
            }
            Step::Goes(kind, n, next) => {
                put_token(&mut tokens, kind, at)?;
                at += n;
                mode = next;
            }
        }
    }
    Ok(tokens)
}
