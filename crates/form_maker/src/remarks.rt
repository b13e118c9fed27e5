//! Comments, CDATA sections and instructions (XML 1.0, 2.5 to 2.7).

ghost use Rattle.std.specs.Prelude.{◌≡◌, OnOk};
ghost use Rattle.page_forms.specs.Remarks as spec;
ghost use Rattle.page_forms.specs.Words as words;
ghost use Rattle.form_maker.specs.Making.{making_of, pushed};

use crate::class::{ByteClass, CharacterTest};
use crate::maker::Maker;
use text_base::NoMemory;

impl Maker {
    /// Comments.
    #[tactic(auto, unfolding(page_forms::specs::Remarks::comment_form))]
    pub fn comment(&mut self) -> Result<(), NoMemory>
        ensures { OnOk result (making_of self.new ≡ pushed spec.comment_form (making_of self.old)) }
    {
        self.word(b"<!--")?;
        self.other_than(b'-')?;
        self.byte(b'-')?;
        self.other_than(b'-')?;
        self.chain()?;
        self.either()?;
        self.star()?;
        self.word(b"-->")?;
        self.chain()?;
        self.chain()?;
        Ok(())
    }

    /// A character but this one, behind it at most so many times; or any but `>` behind more.
    fn run_then(&mut self, byte: u8, count: u8) -> Result<(), NoMemory>
        ensures { OnOk result
            (making_of self.new ≡ pushed (spec.run_then byte count) (making_of self.old)) }
    {
        if count == 0 {
            self.byte(byte)?;
            self.star()?;
            self.character(CharacterTest::Neither(byte))?;
            self.chain()?;
            return Ok(());
        }
        self.other_than(byte)?;
        self.byte(byte)?;
        self.run_then(byte, count - 1)?;
        self.chain()?;
        self.either()?;
        Ok(())
    }

    /// So many times the same byte.
    fn times(&mut self, byte: u8, count: u8) -> Result<(), NoMemory>
        ensures { OnOk result
            (making_of self.new ≡ pushed (words.word (spec.times byte count)) (making_of self.old)) }
    {
        if count == 0 {
            self.empty()?;
            return Ok(());
        }
        self.byte(byte)?;
        self.times(byte, count - 1)?;
        self.chain()?;
        Ok(())
    }

    /// Characters up to the first place where this one stands so many times with `>` behind it.
    fn text_up_to(&mut self, byte: u8, count: u8) -> Result<(), NoMemory>
        ensures { OnOk result
            (making_of self.new ≡ pushed (spec.text_up_to byte count) (making_of self.old)) }
    {
        self.run_then(byte, count)?;
        self.star()?;
        self.times(byte, count)?;
        self.byte(byte)?;
        self.star()?;
        self.byte(b'>')?;
        self.chain()?;
        self.chain()?;
        self.chain()?;
        Ok(())
    }

    /// CDATA sections.
    #[tactic(auto, unfolding(page_forms::specs::Remarks::section_form))]
    pub fn section(&mut self) -> Result<(), NoMemory>
        ensures { OnOk result (making_of self.new ≡ pushed spec.section_form (making_of self.old)) }
    {
        self.word(b"<![CDATA[")?;
        self.text_up_to(b']', 2)?;
        self.chain()?;
        Ok(())
    }

    /// What may follow in a name, but for this word in any case.
    fn not_behind(&mut self, word: &[u8]) -> Result<(), NoMemory>
        ensures { OnOk result
            (making_of self.new ≡ pushed (spec.not_behind word.now) (making_of self.old)) }
    {
        match word {
            [] => self.name_by(ByteClass::InName)?,
            [first, rest @ ..] => {
                self.empty()?;
                self.name_by(ByteClass::InNameBut(*first))?;
                self.ascii(&ByteClass::Letter(*first))?;
                self.not_behind(rest)?;
                self.chain()?;
                self.either()?;
                self.either()?;
            }
        }
        Ok(())
    }

    /// A name that is not `xml` in any case.
    pub fn target(&mut self) -> Result<(), NoMemory>
        ensures { OnOk result (making_of self.new ≡ pushed spec.target_form (making_of self.old)) }
    {
        self.name_by(ByteClass::NameStartBut(b'x'))?;
        self.ascii(&ByteClass::Letter(b'x'))?;
        self.not_behind(b"ml")?;
        self.chain()?;
        self.either()?;
        Ok(())
    }

    /// Instructions.
    #[tactic(auto, unfolding(page_forms::specs::Remarks::instruction_form))]
    pub fn instruction(&mut self) -> Result<(), NoMemory>
        ensures { OnOk result
            (making_of self.new ≡ pushed spec.instruction_form (making_of self.old)) }
    {
        self.word(b"<?")?;
        self.target()?;
        self.word(b"?>")?;
        self.ascii(&ByteClass::Blank)?;
        self.text_up_to(b'?', 1)?;
        self.chain()?;
        self.either()?;
        self.chain()?;
        self.chain()?;
        Ok(())
    }
}
