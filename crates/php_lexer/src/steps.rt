//! What stands at the head of the bytes.

ghost use Rattle.std.specs.Prelude.{◌≡◌, ◌<◌, length, IfOk, IfSome};
ghost use Rattle.lexical_grammar.specs.Cuts as cuts;
ghost use Rattle.lexical_grammar.specs.Steps.{inside};
ghost use Rattle.php_lexer.specs.Leads as leads;
ghost use Rattle.php_lexer.specs.View.{maybe_step, plain_step, mode_of, Reads, ReadsWithin, IsWithin};

use crate::blanks::{block_comment_step, leaving_step, line_comment_step};
use crate::double::double_step;
use crate::heredoc::{heredoc_step, nowdoc_step};
use crate::lead::{Lead, lead_of};
use crate::numbers::number_step;
use crate::openers::outside_step;
use crate::signs::{cast_step, sign_step};
use crate::single::single_step;
use crate::step::{Mode, Step};
use crate::words::{name_step, variable_step};
use lexical_grammar::fault::LexicalFault;
use std::alloc::Global;
use text_base::NoMemory;

// A comment.
fn comment_step(bytes: &[u8]) -> Option<Step>
    ensures value { maybe_step result ≡ leads.comment bytes.now }
    ensures within { IfSome result (IsWithin (length bytes.now)) }
{
    if let Some(step) = line_comment_step(bytes) {
        return Some(step);
    }
    block_comment_step(bytes)
}

// The tag that leaves PHP, or a sign.
fn leaving_or_sign(bytes: &[u8]) -> Option<Step>
    ensures value { maybe_step result ≡ leads.leaving_or_sign bytes.now }
    ensures within { IfSome result (IsWithin (length bytes.now)) }
{
    if let Some(step) = leaving_step(bytes) {
        return Some(step);
    }
    sign_step(bytes)
}

// A heredoc, a nowdoc or a sign.
fn heredoc_or_sign(alloc: Global, bytes: &[u8]) -> Result<Option<Step>, NoMemory>
    ensures value { Reads result (leads.heredoc_or_sign bytes.now) }
    ensures within { ReadsWithin result (length bytes.now) }
{
    if let Some(step) = heredoc_step(alloc, bytes)? {
        return Ok(Some(step));
    }
    if let Some(step) = nowdoc_step(alloc, bytes)? {
        return Ok(Some(step));
    }
    Ok(sign_step(bytes))
}

// A cast or a sign.
fn cast_or_sign(bytes: &[u8]) -> Option<Step>
    ensures value { maybe_step result ≡ leads.cast_or_sign bytes.now }
    ensures within { IfSome result (IsWithin (length bytes.now)) }
{
    if let Some(step) = cast_step(bytes) {
        return Some(step);
    }
    sign_step(bytes)
}

// A float, which is refused, or a sign.
fn float_or_sign(bytes: &[u8]) -> Option<Step>
    ensures value { maybe_step result ≡ leads.float_or_sign bytes.now }
    ensures within { IfSome result (IsWithin (length bytes.now)) }
{
    if let Some(step) = number_step(bytes) {
        return Some(step);
    }
    sign_step(bytes)
}

// What stands at the head, by what the first byte can begin.
fn led_step(alloc: Global, lead: Lead, bytes: &[u8]) -> Result<Option<Step>, NoMemory>
    requires { 0 < length bytes.now }
    ensures value { Reads result (leads.led_step lead bytes.now) }
    ensures within { ReadsWithin result (length bytes.now) }
{
    match lead {
        Lead::Blank => Ok(Some(Step::Goes(None, 1, Mode::Inside))),
        Lead::Name => name_step(alloc, bytes),
        Lead::Variable => variable_step(alloc, bytes),
        Lead::Number => Ok(number_step(bytes)),
        Lead::SingleQuote => single_step(alloc, bytes),
        Lead::DoubleQuote => double_step(alloc, bytes),
        Lead::Slash => Ok(comment_step(bytes)),
        Lead::Sharp => Ok(line_comment_step(bytes)),
        Lead::QuestionMark => Ok(leaving_or_sign(bytes)),
        Lead::LessThan => heredoc_or_sign(alloc, bytes),
        Lead::Bracket => Ok(cast_or_sign(bytes)),
        Lead::Point => Ok(float_or_sign(bytes)),
        Lead::Other => Ok(sign_step(bytes)),
    }
}

// What stands at the head inside PHP, if anything of the lexical grammar does.
fn lexeme_step(alloc: Global, bytes: &[u8]) -> Result<Option<Step>, NoMemory>
    requires { 0 < length bytes.now }
    ensures value { Reads result (cuts.lexeme_step bytes.now) }
    ensures within { ReadsWithin result (length bytes.now) }
{
    match bytes {
        [] => Ok(None),
        [byte, ..] => led_step(alloc, lead_of(*byte), bytes),
    }
}

// What stands at the head inside PHP.
#[tactic(auto, unfolding(lexical_grammar::specs::Cuts::step))]
fn inside_step(alloc: Global, bytes: &[u8]) -> Result<Step, NoMemory>
    requires { 0 < length bytes.now }
    ensures value { IfOk result (λ s. plain_step s ≡ cuts.step inside bytes.now) }
    ensures within { IfOk result (IsWithin (length bytes.now)) }
{
    match lexeme_step(alloc, bytes)? {
        None => Ok(Step::Refuses(LexicalFault::BadByte, 0)),
        Some(step) => Ok(step),
    }
}

/// What stands at the head.
pub fn next_step(alloc: Global, mode: Mode, bytes: &[u8]) -> Result<Step, NoMemory>
    requires { 0 < length bytes.now }
    ensures value { IfOk result (λ s. plain_step s ≡ cuts.step (mode_of mode) bytes.now) }
    ensures within { IfOk result (IsWithin (length bytes.now)) }
{
    match mode {
        Mode::Outside => outside_step(alloc, bytes),
        Mode::Inside => inside_step(alloc, bytes),
    }
}
