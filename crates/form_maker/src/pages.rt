//! All forms of the pieces of a page.

ghost use Rattle.std.specs.Prelude.{◌≡◌, ◌++◌, ℕ, List, map, IfOk, OnOk};
ghost use Rattle.derivatives.specs.Standing.{expr_at};
ghost use Rattle.dtd_model.specs.TableOf.{table_of};
ghost use Rattle.page_forms.specs.Simple as simple;
ghost use Rattle.page_model.specs.Places.{at_beginning};
ghost use Rattle.form_maker.specs.Kept as spec;
ghost use Rattle.form_maker.specs.Kept.{keeping, shared, simple_forms, text_forms};
ghost use Rattle.form_maker.specs.Making.{making_of, pushed};

use crate::class::{ByteClass, CharacterTest};
use crate::maker::Maker;
use derivatives::Arena;
use dtd_index::IndexedDtd;
use dtd_model::DoctypeRule;
use std::alloc::Global;
use text_base::{Bytes, NoMemory};

/// Expressions of an arena, by their numbers.
#[derive(Drop)]
pub struct Made {
    pub arena: Arena,
    pub numbers: Vec<usize>,
}

impl Maker {
    /// Keeps what several attributes have, and references.
    #[tactic(auto, unfolding(crate::specs::Kept::shared))]
    fn share(&mut self, entities: &[Bytes]) -> Result<(), NoMemory>
        ensures { OnOk result
            (making_of self.new ≡ keeping (shared entities.now) (making_of self.old)) }
    {
        self.reference(entities)?;
        self.keep()?;
        self.text_behind(entities)?;
        self.keep()?;
        self.one_word_behind(ByteClass::NameStart)?;
        self.keep()?;
        self.some_words_behind(ByteClass::NameStart)?;
        self.keep()?;
        self.one_word_behind(ByteClass::InName)?;
        self.keep()?;
        self.some_words_behind(ByteClass::InName)?;
        self.keep()?;
        Ok(())
    }

    /// Text at the beginning of a page.
    fn first_text(&mut self) -> Result<(), NoMemory>
        ensures { OnOk result
            (making_of self.new ≡ pushed (simple.text_form at_beginning) (making_of self.old)) }
    {
        self.ascii(&ByteClass::Character(CharacterTest::TextAtBeginning))?;
        self.beyond_but_mark()?;
        self.either()?;
        Ok(())
    }

    /// Keeps the forms of text, by where it stands.
    fn texts(&mut self) -> Result<(), NoMemory>
        ensures { OnOk result (making_of self.new ≡ keeping text_forms (making_of self.old)) }
    {
        self.first_text()?;
        self.keep()?;
        self.character(CharacterTest::TextBehindMark)?;
        self.keep()?;
        self.character(CharacterTest::TextBehind(0))?;
        self.keep()?;
        self.character(CharacterTest::TextBehind(2))?;
        self.keep()?;
        Ok(())
    }

    /// Keeps the forms of the pieces that no element changes.
    pub fn simple(&mut self, rule: DoctypeRule) -> Result<(), NoMemory>
        ensures { OnOk result
            (making_of self.new ≡ keeping (simple_forms rule) (making_of self.old)) }
    {
        self.word(&[0xEF, 0xBB, 0xBF])?;
        self.keep()?;
        self.declaration()?;
        self.keep()?;
        self.ascii(&ByteClass::Blank)?;
        self.keep()?;
        self.word(b"]")?;
        self.keep()?;
        self.section()?;
        self.keep()?;
        self.comment()?;
        self.keep()?;
        self.instruction()?;
        self.keep()?;
        self.doctype(rule)?;
        self.keep()?;
        self.texts()?;
        Ok(())
    }

    /// The expressions that are kept.
    pub fn finish(self) -> Made
        ensures { map (expr_at result.arena) result.numbers.items ≡ (making_of self).kept }
    {
        let Maker { arena, kept, .. } = self;
        Made {
            arena,
            numbers: kept,
        }
    }
}

/// All forms of the pieces of a page, by a definition of documents. Each value that attributes
/// have in common is made once.
pub fn all_forms(alloc: Global, indexed: &IndexedDtd<'_>) -> Result<Made, NoMemory>
    ensures { IfOk result
        (λ made. map (expr_at made.arena) made.numbers.items
        ≡ spec.all_forms (table_of indexed.now.dtd.now)) }
{
    let entities = indexed.dtd.entities.as_slice();
    let mut maker = Maker::new(alloc);
    maker.share(entities)?;
    maker.simple(indexed.dtd.doctype)?;
    maker.elements(indexed)?;
    Ok(maker.finish())
}
