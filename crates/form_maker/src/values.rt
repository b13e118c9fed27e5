//! Values of attributes by their types (XML 1.0, 3.3.1).

ghost use Rattle.std.specs.Prelude.{◌≡◌, ℕ, List, OnOk};
ghost use Rattle.dtd_model.specs.Table.{cdata, kind_of};
ghost use Rattle.page_forms.specs.Tags as spec;
ghost use Rattle.page_forms.specs.Words.{one_of_words};
ghost use Rattle.xml_text.specs.Names.{is_name_token};
ghost use Rattle.form_maker.specs.Kept.{HasShared, text_in_quotes, value_behind, words_behind};
ghost use Rattle.form_maker.specs.Making.{making_of, pushed};
ghost use Rattle.form_maker.specs.Words.{name_by};

use crate::class::{ByteClass, CharacterTest};
use crate::maker::Maker;
use crate::references::WordTest;
use dtd_model::AttrKind;
use text_base::{Bytes, NoMemory};

impl Maker {
    /// A value of any text between such quotes.
    fn text(&mut self, entities: &[Bytes], quote: u8) -> Result<(), NoMemory>
        ensures { OnOk result
            (making_of self.new
            ≡ pushed (text_in_quotes entities.now quote) (making_of self.old)) }
    {
        self.character(CharacterTest::InValue(quote))?;
        self.reference(entities)?;
        self.either()?;
        self.star()?;
        self.quote(quote)?;
        Ok(())
    }

    /// What stands behind the name of an attribute of any text.
    pub(crate) fn text_behind(&mut self, entities: &[Bytes]) -> Result<(), NoMemory>
        ensures { OnOk result
            (making_of self.new ≡ pushed (value_behind entities.now cdata) (making_of self.old)) }
    {
        self.text(entities, b'"')?;
        self.text(entities, b'\'')?;
        self.either()?;
        self.behind_equals()?;
        Ok(())
    }

    /// One word, with white space round it.
    fn one_word(&mut self, first: ByteClass) -> Result<(), NoMemory>
        ensures { OnOk result
            (making_of self.new ≡ pushed (spec.one_word (name_by first)) (making_of self.old)) }
    {
        self.blanks()?;
        self.name_by(first)?;
        self.blanks()?;
        self.chain()?;
        self.chain()?;
        Ok(())
    }

    /// One word or more, with white space between them and round them.
    fn some_words(&mut self, first: ByteClass) -> Result<(), NoMemory>
        ensures { OnOk result
            (making_of self.new ≡ pushed (spec.some_words (name_by first)) (making_of self.old)) }
    {
        self.blanks()?;
        self.name_by(first)?;
        self.gap()?;
        self.name_by(first)?;
        self.chain()?;
        self.star()?;
        self.blanks()?;
        self.chain()?;
        self.chain()?;
        self.chain()?;
        Ok(())
    }

    /// What stands behind the name of an attribute of one word.
    pub(crate) fn one_word_behind(&mut self, first: ByteClass) -> Result<(), NoMemory>
        ensures { OnOk result
            (making_of self.new
            ≡ pushed (words_behind (spec.one_word (name_by first))) (making_of self.old)) }
    {
        self.one_word(first)?;
        self.quote(b'"')?;
        self.one_word(first)?;
        self.quote(b'\'')?;
        self.either()?;
        self.behind_equals()?;
        Ok(())
    }

    /// What stands behind the name of an attribute of one word or more.
    pub(crate) fn some_words_behind(&mut self, first: ByteClass) -> Result<(), NoMemory>
        ensures { OnOk result
            (making_of self.new
            ≡ pushed (words_behind (spec.some_words (name_by first))) (making_of self.old)) }
    {
        self.some_words(first)?;
        self.quote(b'"')?;
        self.some_words(first)?;
        self.quote(b'\'')?;
        self.either()?;
        self.behind_equals()?;
        Ok(())
    }

    /// One of the tokens, with white space round it.
    fn choice(&mut self, tokens: &[Bytes]) -> Result<(), NoMemory>
        ensures { OnOk result
            (making_of self.new
            ≡ pushed (spec.one_word (one_of_words is_name_token tokens.now)) (making_of self.old)) }
    {
        self.blanks()?;
        self.one_of(WordTest::Token, tokens)?;
        self.blanks()?;
        self.chain()?;
        self.chain()?;
        Ok(())
    }

    /// What stands behind the name of an attribute of one of the tokens.
    fn choice_behind(&mut self, tokens: &[Bytes]) -> Result<(), NoMemory>
        ensures { OnOk result
            (making_of self.new
            ≡ pushed (words_behind (spec.one_word (one_of_words is_name_token tokens.now)))
            (making_of self.old)) }
    {
        self.choice(tokens)?;
        self.quote(b'"')?;
        self.choice(tokens)?;
        self.quote(b'\'')?;
        self.either()?;
        self.behind_equals()?;
        Ok(())
    }

    /// What stands behind the name of an attribute of this type, by what is kept first.
    pub(crate) fn kind_behind(&mut self, kind: &AttrKind) -> Result<(), NoMemory>
        ensures { (entities : List (List ℕ)) → HasShared entities (making_of self.old) → OnOk result
            (making_of self.new
            ≡ pushed (value_behind entities (kind_of kind.now)) (making_of self.old)) }
    {
        match kind {
            AttrKind::Cdata => {
                self.fetch(1)?;
                Ok(())
            }
            AttrKind::Id => {
                self.fetch(2)?;
                Ok(())
            }
            AttrKind::Idref => {
                self.fetch(2)?;
                Ok(())
            }
            AttrKind::Idrefs => {
                self.fetch(3)?;
                Ok(())
            }
            AttrKind::Nmtoken => {
                self.fetch(4)?;
                Ok(())
            }
            AttrKind::Nmtokens => {
                self.fetch(5)?;
                Ok(())
            }
            AttrKind::Choice(tokens) => {
                self.choice_behind(tokens.as_slice())?;
                Ok(())
            }
        }
    }
}
