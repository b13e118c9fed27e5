//! Characters by their bytes, white space and names.

ghost use Rattle.std.specs.Prelude.{◌≡◌, ◌++◌, ℕ, List, OnOk};
ghost use Rattle.derivatives.specs.Derivatives.{either_of};
ghost use Rattle.page_forms.specs.Simple as simple;
ghost use Rattle.page_forms.specs.Words as words;
ghost use Rattle.form_maker.specs.Classes.{character_test};
ghost use Rattle.form_maker.specs.Making.{changed, making_of, pushed};
ghost use Rattle.form_maker.specs.Words as spec;

use crate::class::{ByteClass, CharacterTest};
use crate::maker::Maker;
use text_base::{ByteRange, NoMemory};

/// The bytes of a character behind its first.
const LATER: (u8, u8) = (0x80, 0xBF);

impl Maker {
    /// The bytes from the one to the other; none, where that is before this.
    fn span(&mut self, low: u8, high: u8) -> Result<(), NoMemory>
        ensures { OnOk result (making_of self.new ≡ pushed (spec.span low high) (making_of self.old)) }
    {
        match ByteRange::new(low, high) {
            Some(bytes) => self.range(bytes)?,
            None => self.nothing()?,
        }
        Ok(())
    }

    /// From each of these one byte, in their order.
    fn spans(&mut self, spans: &[(u8, u8)]) -> Result<(), NoMemory>
        ensures { OnOk result (making_of self.new ≡ pushed (spec.spans spans.now) (making_of self.old)) }
    {
        match spans {
            [] => self.empty()?,
            [first, rest @ ..] => {
                self.span(first.0, first.1)?;
                self.spans(rest)?;
                self.chain()?;
            }
        }
        Ok(())
    }

    /// The same, or the last expression.
    fn row_before(&mut self, spans: &[(u8, u8)]) -> Result<(), NoMemory>
        ensures { OnOk result
            (making_of self.new ≡ changed (either_of (spec.spans spans.now)) (making_of self.old)) }
    {
        self.spans(spans)?;
        self.either_before()?;
        Ok(())
    }

    /// U+10000 to U+10FFFF.
    fn high_rows(&mut self) -> Result<(), NoMemory>
        ensures { OnOk result
            (making_of self.new ≡ pushed (words.by_rows words.high_rows) (making_of self.old)) }
    {
        self.nothing()?;
        self.row_before(&[(0xF4, 0xF4), (0x80, 0x8F), LATER, LATER])?;
        self.row_before(&[(0xF1, 0xF3), LATER, LATER, LATER])?;
        self.row_before(&[(0xF0, 0xF0), (0x90, 0xBF), LATER, LATER])?;
        Ok(())
    }

    /// U+0080 to U+EFFF, without surrogates, or the last expression.
    fn low_rows_before(&mut self) -> Result<(), NoMemory>
        ensures { OnOk result
            (making_of self.new ≡ changed (spec.rows_before words.low_rows) (making_of self.old)) }
    {
        self.row_before(&[(0xEE, 0xEE), LATER, LATER])?;
        self.row_before(&[(0xED, 0xED), (0x80, 0x9F), LATER])?;
        self.row_before(&[(0xE1, 0xEC), LATER, LATER])?;
        self.row_before(&[(0xE0, 0xE0), (0xA0, 0xBF), LATER])?;
        self.row_before(&[(0xC2, 0xDF), LATER])?;
        Ok(())
    }

    /// A character beyond ASCII.
    #[tactic(auto, unfolding(page_forms::specs::Words::beyond_ascii))]
    pub fn beyond_ascii(&mut self) -> Result<(), NoMemory>
        ensures { OnOk result
            (making_of self.new ≡ pushed words.beyond_ascii (making_of self.old)) }
    {
        self.high_rows()?;
        self.row_before(&[(0xEF, 0xEF), (0xBF, 0xBF), (0x80, 0xBD)])?;
        self.row_before(&[(0xEF, 0xEF), (0x80, 0xBE), LATER])?;
        self.low_rows_before()?;
        Ok(())
    }

    /// A character beyond ASCII, but for U+FEFF.
    #[tactic(auto, unfolding(page_forms::specs::Simple::beyond_but_mark))]
    pub fn beyond_but_mark(&mut self) -> Result<(), NoMemory>
        ensures { OnOk result
            (making_of self.new ≡ pushed simple.beyond_but_mark (making_of self.old)) }
    {
        self.high_rows()?;
        self.row_before(&[(0xEF, 0xEF), (0xBF, 0xBF), (0x80, 0xBD)])?;
        self.row_before(&[(0xEF, 0xEF), (0xBC, 0xBE), LATER])?;
        self.row_before(&[(0xEF, 0xEF), (0xBB, 0xBB), (0x80, 0xBE)])?;
        self.row_before(&[(0xEF, 0xEF), (0x80, 0xBA), LATER])?;
        self.low_rows_before()?;
        Ok(())
    }

    /// A character that passes a test, and those beyond ASCII all do.
    pub fn character(&mut self, test: CharacterTest) -> Result<(), NoMemory>
        ensures { OnOk result
            (making_of self.new
            ≡ pushed (words.character_of (character_test test)) (making_of self.old)) }
    {
        self.ascii(&ByteClass::Character(test))?;
        self.beyond_ascii()?;
        self.either()?;
        Ok(())
    }

    /// Any character but one of ASCII.
    pub fn other_than(&mut self, byte: u8) -> Result<(), NoMemory>
        ensures { OnOk result
            (making_of self.new ≡ pushed (words.other_than byte) (making_of self.old)) }
    {
        self.character(CharacterTest::OtherThan(byte))?;
        Ok(())
    }

    /// White space, maybe none (XML 1.0, 2.3).
    pub fn blanks(&mut self) -> Result<(), NoMemory>
        ensures { OnOk result (making_of self.new ≡ pushed words.blanks (making_of self.old)) }
    {
        self.ascii(&ByteClass::Blank)?;
        self.star()?;
        Ok(())
    }

    /// Some white space.
    pub fn gap(&mut self) -> Result<(), NoMemory>
        ensures { OnOk result (making_of self.new ≡ pushed words.gap (making_of self.old)) }
    {
        self.ascii(&ByteClass::Blank)?;
        self.blanks()?;
        self.chain()?;
        Ok(())
    }

    /// A byte that a name may hold, any number of times.
    pub fn rest_of_name(&mut self) -> Result<(), NoMemory>
        ensures { OnOk result
            (making_of self.new ≡ pushed spec.rest_of_name (making_of self.old)) }
    {
        self.ascii(&ByteClass::InName)?;
        self.star()?;
        Ok(())
    }

    /// A byte of a class, and such bytes behind it.
    pub fn name_by(&mut self, first: ByteClass) -> Result<(), NoMemory>
        ensures { OnOk result
            (making_of self.new ≡ pushed (spec.name_by first) (making_of self.old)) }
    {
        self.ascii(&first)?;
        self.rest_of_name()?;
        self.chain()?;
        Ok(())
    }
}
