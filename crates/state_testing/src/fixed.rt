//! What is left of a fixed value.

ghost use Rattle.std.specs.Prelude.{◌≡◌, ◌++◌, IfOk, chars};
ghost use Rattle.std.specs.List.{list_all};
ghost use Rattle.dtd_model.specs.Table.{declared_of, presence_of};
ghost use Rattle.dtd_model.specs.TableOf.{table_of};
ghost use Rattle.page_model.specs.Parts as parts;
ghost use Rattle.page_endings.specs.Ending as ending;

use dtd_index::IndexedDtd;
use dtd_model::{AttrRule, Need};
use open_pieces::{Characters, OpenValue};
use std::alloc::Global;
use std::str;
use text_base::NoMemory;
use value_ending::value_good;
use value_stepping::may_stand;

// The bytes behind as many as the UTF-8 of the characters has.
fn bytes_behind<'w>(wanted: &'w [u8], value: &[char]) -> &'w [u8]
    ensures { result.now ≡ ending.bytes_behind wanted.now value.now }
{
    let mut rest = wanted;
    for c in value {
        let (_, behind) = rest.split_at(c.len_utf8().min(rest.len()));
        rest = behind;
    }
    rest
}

fn may_be_quoted(quote: char, c: char) -> bool
    ensures { result ≡ parts.may_be_quoted quote c }
{
    may_stand(c) && c != quote
}

fn are_quoted(quote: char, text: &str) -> bool
    ensures { result ≡ list_all (parts.may_be_quoted quote) (chars text.now) }
{
    for c in text.chars() {
        if !may_be_quoted(quote, c) {
            return false;
        }
    }
    true
}

// The characters, and then those of the text.
fn joined(alloc: Global, value: &Characters, text: &str) -> Result<Characters, NoMemory>
    ensures { IfOk result (λ whole. whole ≡ value.now ++ chars text.now) }
{
    let mut whole = value.copy(alloc)?;
    for c in text.chars() {
        whole.push(c)?;
    }
    Ok(whole)
}

fn ends_by(
    alloc: Global,
    indexed: &IndexedDtd<'_>,
    rule: &AttrRule,
    quote: char,
    value: &Characters,
    rest: &str,
) -> Result<bool, NoMemory>
    ensures { IfOk result (λ is. is
        ≡ ending.ends_by (table_of indexed.now.dtd.now).entities (declared_of rule.now) quote
        value.now (chars rest.now)) }
{
    if !are_quoted(quote, rest) {
        return Ok(false);
    }
    let whole = OpenValue::Fixed(joined(alloc, value, rest)?);
    value_good(alloc, indexed, rule, &whole)
}

/// Whether the rest of a fixed value can be written in such quotes. Takes memory for its
/// characters.
pub fn fixed_can_end(
    alloc: Global,
    indexed: &IndexedDtd<'_>,
    rule: &AttrRule,
    quote: char,
    value: &Characters,
) -> Result<bool, NoMemory>
    ensures { IfOk result (λ is. is
        ≡ ending.fixed_can_end (table_of indexed.now.dtd.now).entities (declared_of rule.now) quote
        value.now (presence_of rule.now.need)) }
{
    match &rule.need {
        Need::Fixed(wanted) => {
            match str::from_utf8(bytes_behind(wanted.as_slice(), value.as_slice())) {
                Ok(rest) => ends_by(alloc, indexed, rule, quote, value, rest),
                Err(_) => Ok(false),
            }
        }
        Need::Implied | Need::Required | Need::Default => Ok(true),
    }
}

/// Whether a fixed value goes on with these bytes behind what is read of it.
pub fn fixed_goes_on(need: &Need, value: &[char], begun: &[u8]) -> bool
    ensures { result ≡ ending.fixed_goes_on (presence_of need.now) value.now begun.now }
{
    match need {
        Need::Fixed(wanted) => bytes_behind(wanted.as_slice(), value).starts_with(begun),
        Need::Implied | Need::Required | Need::Default => true,
    }
}
