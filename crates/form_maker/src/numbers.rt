//! Numbers of characters (XML 1.0, 4.1).

ghost use Rattle.std.specs.Prelude.{◌≡◌, OnOk};
ghost use Rattle.derivatives.specs.Derivatives.{chain_of, either_of};
ghost use Rattle.page_forms.specs.References as spec;
ghost use Rattle.form_maker.specs.Classes.{is_digit};
ghost use Rattle.form_maker.specs.Words as own;
ghost use Rattle.form_maker.specs.Making.{changed, making_of, pushed};

use crate::class::{Base, ByteClass, DigitTest, value};
use crate::maker::Maker;
use text_base::NoMemory;

impl Maker {
    /// As many digits as these.
    fn as_many(&mut self, base: Base, digits: &[u8]) -> Result<(), NoMemory>
        ensures { OnOk result
            (making_of self.new ≡ pushed (spec.as_many (is_digit base) digits.now) (making_of self.old)) }
    {
        match digits {
            [] => self.empty()?,
            [_, rest @ ..] => {
                self.ascii(&base)?;
                self.as_many(base, rest)?;
                self.chain()?;
            }
        }
        Ok(())
    }

    /// As many, which write this number or a higher one.
    fn at_least(&mut self, base: Base, digits: &[u8]) -> Result<(), NoMemory>
        ensures { OnOk result
            (making_of self.new ≡ pushed (spec.at_least (is_digit base) digits.now) (making_of self.old)) }
    {
        match digits {
            [] => self.empty()?,
            [first, rest @ ..] => {
                self.ascii(&ByteClass::Digit(base, DigitTest::EqualTo(*first)))?;
                self.at_least(base, rest)?;
                self.chain()?;
                self.ascii(&ByteClass::Digit(base, DigitTest::Above(*first)))?;
                self.as_many(base, rest)?;
                self.chain()?;
                self.either()?;
            }
        }
        Ok(())
    }

    /// As many, which write this number or a lower one.
    fn at_most(&mut self, base: Base, digits: &[u8]) -> Result<(), NoMemory>
        ensures { OnOk result
            (making_of self.new ≡ pushed (spec.at_most (is_digit base) digits.now) (making_of self.old)) }
    {
        match digits {
            [] => self.empty()?,
            [first, rest @ ..] => {
                self.ascii(&ByteClass::Digit(base, DigitTest::EqualTo(*first)))?;
                self.at_most(base, rest)?;
                self.chain()?;
                self.ascii(&ByteClass::Digit(base, DigitTest::Below(*first)))?;
                self.as_many(base, rest)?;
                self.chain()?;
                self.either()?;
            }
        }
        Ok(())
    }

    /// A digit of the value of this one, and what writes this number or a higher one behind it.
    fn from_lowest(&mut self, base: Base, digit: u8, rest: &[u8]) -> Result<(), NoMemory>
        ensures { OnOk result
            (making_of self.new
            ≡ pushed (chain_of (spec.equal_to (is_digit base) digit) (spec.at_least (is_digit base) rest.now))
            (making_of self.old)) }
    {
        self.ascii(&ByteClass::Digit(base, DigitTest::EqualTo(digit)))?;
        self.at_least(base, rest)?;
        self.chain()?;
        Ok(())
    }

    /// The same with a lower number.
    fn to_highest(&mut self, base: Base, digit: u8, rest: &[u8]) -> Result<(), NoMemory>
        ensures { OnOk result
            (making_of self.new
            ≡ pushed (chain_of (spec.equal_to (is_digit base) digit) (spec.at_most (is_digit base) rest.now))
            (making_of self.old)) }
    {
        self.ascii(&ByteClass::Digit(base, DigitTest::EqualTo(digit)))?;
        self.at_most(base, rest)?;
        self.chain()?;
        Ok(())
    }

    /// A digit of a value between those of two, and as many digits as these behind it.
    fn between(&mut self, base: Base, low: u8, high: u8, rest: &[u8]) -> Result<(), NoMemory>
        ensures { OnOk result
            (making_of self.new
            ≡ pushed (chain_of (spec.inside (is_digit base) low high) (spec.as_many (is_digit base) rest.now))
            (making_of self.old)) }
    {
        self.ascii(&ByteClass::Digit(base, DigitTest::Between(low, high)))?;
        self.as_many(base, rest)?;
        self.chain()?;
        Ok(())
    }

    /// Numbers from the one to the other, of as many digits as the one.
    fn from_to(&mut self, base: Base, from: &[u8], to: &[u8]) -> Result<(), NoMemory>
        ensures { OnOk result
            (making_of self.new ≡ pushed (spec.from_to (is_digit base) from.now to.now) (making_of self.old)) }
    {
        let Some((low, lows)) = from.split_first() else {
            self.empty()?;
            return Ok(());
        };
        let Some((high, highs)) = to.split_first() else {
            self.nothing()?;
            return Ok(());
        };
        if value(*low) == value(*high) {
            self.ascii(&ByteClass::Digit(base, DigitTest::EqualTo(*low)))?;
            self.from_to(base, lows, highs)?;
            self.chain()?;
            return Ok(());
        }
        self.from_lowest(base, *low, lows)?;
        self.between(base, *low, *high, lows)?;
        self.to_highest(base, *high, highs)?;
        self.either()?;
        self.either()?;
        Ok(())
    }

    /// Numbers from the one to the other, or the last expression.
    fn numbers_or(&mut self, base: Base, from: &[u8], to: &[u8]) -> Result<(), NoMemory>
        ensures { OnOk result
            (making_of self.new ≡ changed (either_of (spec.from_to (is_digit base) from.now to.now))
            (making_of self.old)) }
    {
        self.from_to(base, from, to)?;
        self.either_before()?;
        Ok(())
    }

    /// The last expression behind zeros.
    fn behind_zeros(&mut self) -> Result<(), NoMemory>
        ensures { OnOk result
            (making_of self.new ≡ changed own.behind_zeros (making_of self.old)) }
    {
        self.byte(b'0')?;
        self.star()?;
        self.chain_before()?;
        Ok(())
    }

    /// The numbers of characters in decimal digits.
    #[tactic(auto, unfolding(page_forms::specs::References::decimal_form))]
    pub fn decimal(&mut self) -> Result<(), NoMemory>
        ensures { OnOk result (making_of self.new ≡ pushed spec.decimal_form (making_of self.old)) }
    {
        self.nothing()?;
        self.numbers_or(Base::Decimal, b"1000000", b"1114111")?;
        self.numbers_or(Base::Decimal, b"100000", b"999999")?;
        self.numbers_or(Base::Decimal, b"65536", b"99999")?;
        self.numbers_or(Base::Decimal, b"57344", b"65533")?;
        self.numbers_or(Base::Decimal, b"10000", b"55295")?;
        self.numbers_or(Base::Decimal, b"1000", b"9999")?;
        self.numbers_or(Base::Decimal, b"100", b"999")?;
        self.numbers_or(Base::Decimal, b"32", b"99")?;
        self.numbers_or(Base::Decimal, b"13", b"13")?;
        self.numbers_or(Base::Decimal, b"10", b"10")?;
        self.numbers_or(Base::Decimal, b"9", b"9")?;
        self.behind_zeros()?;
        Ok(())
    }

    /// The same in hexadecimal digits.
    #[tactic(auto, unfolding(page_forms::specs::References::hexadecimal_form))]
    pub fn hexadecimal(&mut self) -> Result<(), NoMemory>
        ensures { OnOk result
            (making_of self.new ≡ pushed spec.hexadecimal_form (making_of self.old)) }
    {
        self.nothing()?;
        self.numbers_or(Base::Hexadecimal, b"100000", b"10FFFF")?;
        self.numbers_or(Base::Hexadecimal, b"10000", b"FFFFF")?;
        self.numbers_or(Base::Hexadecimal, b"E000", b"FFFD")?;
        self.numbers_or(Base::Hexadecimal, b"1000", b"D7FF")?;
        self.numbers_or(Base::Hexadecimal, b"100", b"FFF")?;
        self.numbers_or(Base::Hexadecimal, b"20", b"FF")?;
        self.numbers_or(Base::Hexadecimal, b"D", b"D")?;
        self.numbers_or(Base::Hexadecimal, b"9", b"A")?;
        self.behind_zeros()?;
        Ok(())
    }
}
