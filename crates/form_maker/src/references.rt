//! References (XML 1.0, 4.1).

ghost use Rattle.std.specs.Prelude.{◌≡◌, map, OnOk};
ghost use Rattle.std.specs.List.{list_all};
ghost use Rattle.xml_text.specs.Names as names;
ghost use Rattle.page_forms.specs.References as spec;
ghost use Rattle.page_forms.specs.Words.{one_of_words};
ghost use Rattle.form_maker.specs.Making.{Changes, making_of, pushed};
ghost use Rattle.form_maker.specs.Words.{word_if, word_test, words_before};
ghost use Rattle.dtd_model.specs.References.{known_entities};

use crate::maker::Maker;
use text_base::{Bytes, NoMemory};
use xml_text::{in_name, is_name};

/// What a word has to be.
#[derive(Clone, Copy)]
pub enum WordTest {
    /// A name.
    Name,
    /// A name token.
    Token,
}

/// Whether each byte may stand in a name.
fn are_in_name(bytes: &[u8]) -> bool
    ensures { result ≡ list_all names.in_name bytes.now }
{
    bytes.iter().all(|byte| in_name(*byte))
}

/// Whether the bytes are a name token (XML 1.0, 2.3).
fn is_token(bytes: &[u8]) -> bool
    ensures { result ≡ names.is_name_token bytes.now }
{
    match bytes {
        [] => false,
        [first, rest @ ..] => in_name(*first) && are_in_name(rest),
    }
}

impl WordTest {
    /// Whether a word passes.
    fn passes(self, word: &[u8]) -> bool
        ensures { result ≡ word_test self word.now }
    {
        match self {
            WordTest::Name => is_name(word),
            WordTest::Token => is_token(word),
        }
    }
}

impl Maker {
    /// The word, where it passes, or the last expression.
    fn word_if(&mut self, passes: bool, word: &[u8]) -> Result<(), NoMemory>
        ensures { OnOk result
            (Changes (word_if passes word.now) (making_of self.old) (making_of self.new)) }
    {
        if passes { self.word_or(word) } else { Ok(()) }
    }

    /// One of the words that pass a test, or the last expression.
    fn words_before(&mut self, test: WordTest, words: &[Bytes]) -> Result<(), NoMemory>
        ensures { OnOk result
            (Changes (words_before (word_test test) words.now) (making_of self.old)
            (making_of self.new)) }
    {
        let mut left = words;
        while let Some((last, others)) = left.split_last() {
            let word = last.as_slice();
            self.word_if(test.passes(word), word)?;
            left = others;
        }
        Ok(())
    }

    /// One of the words that pass a test.
    pub fn one_of(&mut self, test: WordTest, words: &[Bytes]) -> Result<(), NoMemory>
        ensures { OnOk result
            (making_of self.new
            ≡ pushed (one_of_words (word_test test) words.now) (making_of self.old)) }
    {
        self.nothing()?;
        self.words_before(test, words)?;
        Ok(())
    }

    /// The names of the entities that need no declaration (XML 1.0, 4.6).
    fn known_entities(&mut self) -> Result<(), NoMemory>
        ensures { OnOk result
            (making_of self.new
            ≡ pushed (one_of_words names.is_name known_entities) (making_of self.old)) }
    {
        self.nothing()?;
        self.word_or(b"apos")?;
        self.word_or(b"quot")?;
        self.word_or(b"gt")?;
        self.word_or(b"lt")?;
        self.word_or(b"amp")?;
        Ok(())
    }

    /// The name of one of these entities, or of one that needs no declaration. Alternatives are
    /// made from the last one on, so that each is new where it is put before the others: then it is
    /// told at once that it is none of them.
    pub fn entity(&mut self, entities: &[Bytes]) -> Result<(), NoMemory>
        ensures { OnOk result
            (making_of self.new ≡ pushed (spec.entity_form entities.now) (making_of self.old)) }
    {
        self.one_of(WordTest::Name, entities)?;
        self.known_entities()?;
        self.either_before()?;
        Ok(())
    }

    /// References to characters, to these entities and to those that need no declaration.
    #[tactic(auto, unfolding(page_forms::specs::References::reference_form))]
    pub fn reference(&mut self, entities: &[Bytes]) -> Result<(), NoMemory>
        ensures { OnOk result
            (making_of self.new ≡ pushed (spec.reference_form entities.now) (making_of self.old)) }
    {
        self.word(b"&")?;
        self.entity(entities)?;
        self.word(b"#")?;
        self.decimal()?;
        self.word(b"x")?;
        self.hexadecimal()?;
        self.chain()?;
        self.either()?;
        self.chain()?;
        self.either_before()?;
        self.word(b";")?;
        self.chain()?;
        self.chain()?;
        Ok(())
    }
}
