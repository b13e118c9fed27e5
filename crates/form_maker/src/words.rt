//! Words and classes of bytes.

ghost use Rattle.std.specs.Prelude.{◌≡◌, ◌≤◌, ℕ, None, Some, OnOk};
ghost use Rattle.byte_forms.specs.Ranges.{ranges_below};
ghost use Rattle.derivatives.specs.Derivatives.{either_of};
ghost use Rattle.derivatives.specs.Expressions.{range};
ghost use Rattle.page_forms.specs.Words as words;
ghost use Rattle.form_maker.specs.Making.{Changes, changed, making_of, pushed};
ghost use Rattle.form_maker.specs.Words as spec;

use crate::maker::Maker;
use crate::test::ByteTest;
use text_base::{ByteRange, NoMemory};

impl Maker {
    /// One byte.
    pub fn byte(&mut self, byte: u8) -> Result<(), NoMemory>
        ensures { OnOk result (making_of self.new ≡ pushed (range byte byte) (making_of self.old)) }
    {
        self.range(ByteRange { lo: byte, hi: byte })
    }

    /// Bytes in their order, and the last expression behind them.
    pub fn word_before(&mut self, word: &[u8]) -> Result<(), NoMemory>
        ensures { OnOk result
            (Changes (spec.word_before word.now) (making_of self.old) (making_of self.new)) }
    {
        let mut left = word;
        while let Some((last, others)) = left.split_last() {
            self.byte(*last)?;
            self.chain_before()?;
            left = others;
        }
        Ok(())
    }

    /// Exactly these bytes.
    pub fn word(&mut self, word: &[u8]) -> Result<(), NoMemory>
        ensures { OnOk result
            (making_of self.new ≡ pushed (words.word word.now) (making_of self.old)) }
    {
        self.empty()?;
        self.word_before(word)?;
        Ok(())
    }

    /// Exactly these bytes, or the last expression.
    pub fn word_or(&mut self, word: &[u8]) -> Result<(), NoMemory>
        ensures { OnOk result
            (making_of self.new ≡ changed (either_of (words.word word.now)) (making_of self.old)) }
    {
        self.word(word)?;
        self.either_before()?;
        Ok(())
    }

    /// A byte of ASCII that passes a test.
    pub fn ascii<T: ByteTest>(&mut self, test: &T) -> Result<(), NoMemory>
        ensures { OnOk result
            (making_of self.new ≡ pushed (words.ascii (T.passing test.now)) (making_of self.old)) }
    {
        self.nothing()?;
        self.ranges_below(test, 128, None)?;
        Ok(())
    }

    /// The bytes below one that pass a test, as ranges, or the last expression. A range may be
    /// open up to its last byte.
    fn ranges_below<T: ByteTest>(
        &mut self,
        test: &T,
        end: u8,
        last: Option<u8>,
    ) -> Result<(), NoMemory>
        requires { (byte : ℕ) → last ≡ Some byte → end ≤ byte }
        ensures { OnOk result
            (Changes (ranges_below (T.passing test.now) end last) (making_of self.old)
            (making_of self.new)) }
    {
        if end == 0 {
            self.range_before(0, last)?;
            return Ok(());
        }
        let byte = end - 1;
        if test.passes(byte) {
            self.ranges_below(test, byte, Some(last.unwrap_or(byte)))?;
            return Ok(());
        }
        self.range_before(end, last)?;
        self.ranges_below(test, byte, None)?;
        Ok(())
    }

    /// A range that is open up to its last byte, or the last expression.
    fn range_before(&mut self, first: u8, last: Option<u8>) -> Result<(), NoMemory>
        requires { (byte : ℕ) → last ≡ Some byte → first ≤ byte }
        ensures { OnOk result
            (Changes (spec.range_before first last) (making_of self.old) (making_of self.new)) }
    {
        match last {
            None => Ok(()),
            Some(hi) => {
                self.range(ByteRange { lo: first, hi })?;
                self.either_before()
            }
        }
    }
}
