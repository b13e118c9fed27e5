//! Fixed values (XML 1.0, 3.3.2).

ghost use Rattle.std.specs.Prelude.{◌≡◌, ◌&&◌, chars, IfOk, OnOk};
ghost use Rattle.std.specs.List.{list_all};
ghost use Rattle.derivatives.specs.Derivatives.{when};
ghost use Rattle.dtd_model.specs.References.{is_reference};
ghost use Rattle.dtd_model.specs.Table.{kind_of};
ghost use Rattle.dtd_model.specs.TableOf.{table_of};
ghost use Rattle.page_forms.specs.Tags as spec;
ghost use Rattle.page_forms.specs.Words as words;
ghost use Rattle.page_model.specs.Attributes as attributes;
ghost use Rattle.page_model.specs.Parts as parts;
ghost use Rattle.form_maker.specs.Kept.{fixed_form};
ghost use Rattle.form_maker.specs.Making.{making_of, pushed};

use crate::maker::Maker;
use dtd_index::IndexedDtd;
use dtd_model::AttrKind;
use page_rules::{has_kind, refers, refers_to_known};
use std::alloc::Global;
use std::str;
use text_base::NoMemory;
use xml_text::is_character;

/// The characters of a text.
fn characters(alloc: Global, text: &str) -> Result<Vec<char>, NoMemory>
    ensures { IfOk result (λ cs. cs.items ≡ chars text.now) }
{
    let characters = text.chars().collect(alloc)?;
    Ok(characters)
}

/// Whether a character may stand between such quotes, references aside.
fn may_be_quoted(quote: u8, c: char) -> bool
    ensures { result ≡ parts.may_be_quoted quote c }
{
    is_character(c) && !(c == '<' || u32::from(c) == u32::from(quote))
}

/// Whether these may stand between such quotes, references aside.
fn are_quoted(quote: u8, cs: &[char]) -> bool
    ensures { result ≡ list_all (parts.may_be_quoted quote) cs.now }
{
    cs.iter().all(|c| may_be_quoted(quote, *c))
}

/// Whether these are written as a value between such quotes.
fn is_written(quote: u8, cs: &[char]) -> bool
    ensures { result
        ≡ (list_all (parts.may_be_quoted quote) cs.now && parts.refers_by is_reference cs.now) }
{
    are_quoted(quote, cs) && refers(cs)
}

/// Whether these are written so, and refer to what is known alone.
fn is_value(indexed: &IndexedDtd<'_>, quote: u8, cs: &[char]) -> bool
    ensures { result ≡ spec.is_value (table_of indexed.now.dtd.now).entities quote cs.now }
{
    is_written(quote, cs) && refers_to_known(indexed, cs)
}

/// Whether these are a value of a type between such quotes.
fn is_value_of(indexed: &IndexedDtd<'_>, kind: &AttrKind, quote: u8, cs: &[char]) -> bool
    ensures { result
        ≡ (spec.is_value (table_of indexed.now.dtd.now).entities quote cs.now
        && attributes.has_kind (kind_of kind.now) cs.now) }
{
    is_value(indexed, quote, cs) && has_kind(kind, cs)
}

/// Whether the bytes are those of a value of a type between such quotes.
fn is_fixed_value(
    alloc: Global,
    indexed: &IndexedDtd<'_>,
    kind: &AttrKind,
    quote: u8,
    bytes: &[u8],
) -> Result<bool, NoMemory>
    ensures { IfOk result
        (λ is. is ≡ spec.is_fixed_value (table_of indexed.now.dtd.now).entities (kind_of kind.now)
        quote bytes.now) }
{
    match str::from_utf8(bytes) {
        Err(_) => Ok(false),
        Ok(text) => {
            let cs = characters(alloc, text)?;
            let read = cs.as_slice();
            Ok(is_value_of(indexed, kind, quote, read))
        }
    }
}

impl Maker {
    /// Exactly these bytes, or nothing.
    fn word_when(&mut self, is: bool, word: &[u8]) -> Result<(), NoMemory>
        ensures { OnOk result
            (making_of self.new ≡ pushed (when is (words.word word.now)) (making_of self.old)) }
    {
        if is {
            self.word(word)?;
            return Ok(());
        }
        self.nothing()?;
        Ok(())
    }

    /// A fixed value between such quotes; nothing, where none can be.
    pub(crate) fn fixed(
        &mut self,
        indexed: &IndexedDtd<'_>,
        kind: &AttrKind,
        wanted: &[u8],
        quote: u8,
    ) -> Result<(), NoMemory>
        ensures { OnOk result
            (making_of self.new
            ≡ pushed (fixed_form (table_of indexed.now.dtd.now).entities (kind_of kind.now) wanted.now quote)
            (making_of self.old)) }
    {
        let is = is_fixed_value(self.alloc, indexed, kind, quote, wanted)?;
        self.word_when(is, wanted)?;
        self.quote(quote)?;
        Ok(())
    }
}
