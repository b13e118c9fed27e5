//! Templates: the rows of their places, and texts in double quotes.

ghost use Rattle.std.specs.Prelude.{◌≡◌, ◌≤◌, ◌++◌, [], ◌∷◌, length, map, IfOk, IfSome, OnOk};
ghost use Rattle.lexical_grammar.specs.Rows.{row};
ghost use Rattle.lexical_grammar.specs.Texts as spec;
ghost use Rattle.php_syntax.specs.Tokens.{plain_kind, plain_part_of};
ghost use Rattle.php_lexer.specs.Templates.{enclosure_of, parts_row, plain_row, has_end_of, bytes_part, parts_with, plain_with, unit_of, TextWithin};
ghost use Rattle.php_lexer.specs.View.{Reads, ReadsWithin};

use crate::found::Found;
use crate::scan::{begins, behind};
use crate::step::{Mode, Step};
use crate::template::{Enclosure, TextRow, TextUnit};
use crate::units::unit_at;
use lexical_grammar::fault::LexicalFault;
use php_syntax::token::{Part, TokenKind};
use std::alloc::Global;
use std::mem;
use text_base::{Bytes, NoMemory};

// Whether the text comes to its end, whatever stands in it.
fn has_end(alloc: Global, enclosure: Enclosure, bytes: &[u8]) -> Result<bool, NoMemory>
    ensures { IfOk result
        (λ b. b ≡ has_end_of (row (spec.unit_at (enclosure_of enclosure)) 0 bytes.now)) }
{
    let mut n = 0;
    'places: loop {
        match unit_at(alloc, enclosure, behind(bytes, n))? {
            Found::Item(_, k) => {
                n += k;
                continue;
            }
            Found::Wrong(k) => {
                n += k;
                continue;
            }
            Found::Over(_) => return Ok(true),
            Found::Missing => return Ok(false),
        }
    }
}

// The parts, and the bytes behind them as one part more, if there are any.
fn put_bytes(parts: &mut Vec<Part>, bytes: Bytes) -> Result<(), NoMemory>
    ensures { OnOk result
        (map plain_part_of parts.new.items ≡ map plain_part_of parts.old.items ++ bytes_part bytes) }
{
    if !bytes.is_empty() {
        parts.push(Part::Plain(bytes))?;
    }
    Ok(())
}

// A unit of a template behind the parts so far and the bytes behind them.
fn put_unit(
    alloc: Global,
    parts: &mut Vec<Part>,
    plain: &mut Bytes,
    unit: TextUnit,
) -> Result<(), NoMemory>
    ensures parts { OnOk result (map plain_part_of parts.new.items
        ≡ parts_with (map plain_part_of parts.old.items) plain.old (unit_of unit)) }
    ensures plain { OnOk result (plain.new ≡ plain_with plain.old (unit_of unit)) }
{
    match unit {
        TextUnit::Byte(byte) => plain.push(byte)?,
        TextUnit::Reads(name, keys) => {
            put_bytes(parts, mem::replace(plain, Bytes::new(alloc)))?;
            parts.push(Part::Read(name, keys))?;
        }
    }
    Ok(())
}

/// The parts of a template.
pub fn template(alloc: Global, enclosure: Enclosure, bytes: &[u8]) -> Result<TextRow, NoMemory>
    ensures value { IfOk result
        (λ found. plain_row found
        ≡ parts_row (row (spec.unit_at (enclosure_of enclosure)) 0 bytes.now)) }
    ensures within { IfOk result (TextWithin (length bytes.now)) }
{
    let mut parts = Vec::new(alloc);
    let mut plain = Bytes::new(alloc);
    let mut n = 0;
    'places: loop {
        match unit_at(alloc, enclosure, behind(bytes, n))? {
            Found::Item(unit, k) => {
                put_unit(alloc, &mut parts, &mut plain, unit)?;
                n += k;
            }
            Found::Over(k) => {
                put_bytes(&mut parts, plain)?;
                return Ok(TextRow::Whole(parts, n + k));
            }
            Found::Wrong(k) => {
                return if has_end(alloc, enclosure, behind(bytes, n + k))? {
                    Ok(TextRow::Broken(n))
                } else {
                    Ok(TextRow::Endless)
                };
            }
            Found::Missing => return Ok(TextRow::Endless),
        }
    }
}

/// What a template is: a text where no variable is read in it.
pub fn kind_of_parts(alloc: Global, parts: Vec<Part>) -> Result<TokenKind, NoMemory>
    ensures { IfOk result
        (λ kind. plain_kind kind ≡ spec.kind_of_parts (map plain_part_of parts.items)) }
{
    let mut parts = parts;
    match parts.pop() {
        None => Ok(TokenKind::Str(Bytes::new(alloc))),
        Some(Part::Plain(text)) => {
            if parts.is_empty() {
                return Ok(TokenKind::Str(text));
            }
            parts.push(Part::Plain(text))?;
            Ok(TokenKind::Template(parts))
        }
        Some(Part::Read(name, keys)) => {
            parts.push(Part::Read(name, keys))?;
            Ok(TokenKind::Template(parts))
        }
    }
}

/// A text in double quotes.
#[tactic(auto, unfolding(lexical_grammar::specs::Texts::double_step))]
pub fn double_step(alloc: Global, bytes: &[u8]) -> Result<Option<Step>, NoMemory>
    ensures value { Reads result (spec.double_step bytes.now) }
    ensures within { ReadsWithin result (length bytes.now) }
{
    if !begins(bytes, b"\"") {
        return Ok(None);
    }
    match template(alloc, Enclosure::Quotes, behind(bytes, 1))? {
        TextRow::Whole(parts, n) => {
            let kind = kind_of_parts(alloc, parts)?;
            Ok(Some(Step::Goes(Some(kind), 1 + n, Mode::Inside)))
        }
        TextRow::Broken(n) => Ok(Some(Step::Refuses(LexicalFault::Escape, 1 + n))),
        TextRow::Endless => Ok(Some(Step::Refuses(LexicalFault::Unclosed, 0))),
    }
}
