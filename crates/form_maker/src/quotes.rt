//! Texts in quotes, and the XML declaration (XML 1.0, 2.8).

ghost use Rattle.std.specs.Prelude.{◌≡◌, OnOk};
ghost use Rattle.page_forms.specs.Declarations as spec;
ghost use Rattle.page_forms.specs.Quotes.{quoted};
ghost use Rattle.page_forms.specs.Words as words;
ghost use Rattle.form_maker.specs.Kept as own;
ghost use Rattle.form_maker.specs.Making.{changed, making_of, pushed};
ghost use Rattle.form_maker.specs.Quotes.{behind_name, yes_or_no};

use crate::class::ByteClass;
use crate::maker::Maker;
use text_base::NoMemory;

impl Maker {
    /// The last expression between such quotes.
    pub fn quote(&mut self, quote: u8) -> Result<(), NoMemory>
        ensures { OnOk result
            (making_of self.new ≡ changed (own.in_quotes quote) (making_of self.old)) }
    {
        self.byte(quote)?;
        self.chain()?;
        self.byte(quote)?;
        self.chain_before()?;
        Ok(())
    }

    /// This word in either quote.
    pub fn quoted_word(&mut self, word: &[u8]) -> Result<(), NoMemory>
        ensures { OnOk result
            (making_of self.new ≡ pushed (quoted (λ q. words.word word.now)) (making_of self.old)) }
    {
        self.word(word)?;
        self.quote(b'"')?;
        self.word(word)?;
        self.quote(b'\'')?;
        self.either()?;
        Ok(())
    }

    /// The last expression behind `=` with white space round it.
    pub fn behind_equals(&mut self) -> Result<(), NoMemory>
        ensures { OnOk result
            (making_of self.new ≡ changed own.behind_equals (making_of self.old)) }
    {
        self.blanks()?;
        self.chain_before()?;
        self.word(b"=")?;
        self.chain_before()?;
        self.blanks()?;
        self.chain_before()?;
        Ok(())
    }

    /// The last expression behind white space and a name.
    pub fn behind_name(&mut self, name: &[u8]) -> Result<(), NoMemory>
        ensures { OnOk result
            (making_of self.new ≡ changed (behind_name name.now) (making_of self.old)) }
    {
        self.word(name)?;
        self.chain_before()?;
        self.gap()?;
        self.chain_before()?;
        Ok(())
    }

    /// This word in letters of any case.
    fn any_case(&mut self, word: &[u8]) -> Result<(), NoMemory>
        ensures { OnOk result
            (making_of self.new ≡ pushed (spec.any_case word.now) (making_of self.old)) }
    {
        match word {
            [] => self.empty()?,
            [first, rest @ ..] => {
                self.ascii(&ByteClass::Letter(*first))?;
                self.any_case(rest)?;
                self.chain()?;
            }
        }
        Ok(())
    }

    /// The version in an XML declaration.
    fn version(&mut self) -> Result<(), NoMemory>
        ensures { OnOk result (making_of self.new ≡ pushed spec.version_form (making_of self.old)) }
    {
        self.quoted_word(b"1.0")?;
        self.behind_equals()?;
        self.behind_name(b"version")?;
        Ok(())
    }

    /// The encoding in an XML declaration.
    fn encoding(&mut self) -> Result<(), NoMemory>
        ensures { OnOk result (making_of self.new ≡ pushed spec.encoding_form (making_of self.old)) }
    {
        self.any_case(b"UTF-8")?;
        self.quote(b'"')?;
        self.any_case(b"UTF-8")?;
        self.quote(b'\'')?;
        self.either()?;
        self.behind_equals()?;
        self.behind_name(b"encoding")?;
        Ok(())
    }

    /// `yes` or `no`.
    fn yes_or_no(&mut self) -> Result<(), NoMemory>
        ensures { OnOk result (making_of self.new ≡ pushed yes_or_no (making_of self.old)) }
    {
        self.word(b"yes")?;
        self.word(b"no")?;
        self.either()?;
        Ok(())
    }

    /// Whether the page stands alone, in an XML declaration.
    fn standalone(&mut self) -> Result<(), NoMemory>
        ensures { OnOk result
            (making_of self.new ≡ pushed spec.standalone_form (making_of self.old)) }
    {
        self.yes_or_no()?;
        self.quote(b'"')?;
        self.yes_or_no()?;
        self.quote(b'\'')?;
        self.either()?;
        self.behind_equals()?;
        self.behind_name(b"standalone")?;
        Ok(())
    }

    /// XML declarations.
    #[tactic(auto, unfolding(page_forms::specs::Declarations::declaration_form))]
    pub fn declaration(&mut self) -> Result<(), NoMemory>
        ensures { OnOk result
            (making_of self.new ≡ pushed spec.declaration_form (making_of self.old)) }
    {
        self.word(b"<?xml")?;
        self.version()?;
        self.empty()?;
        self.encoding()?;
        self.empty()?;
        self.standalone()?;
        self.either()?;
        self.chain()?;
        self.standalone()?;
        self.either()?;
        self.either()?;
        self.blanks()?;
        self.word(b"?>")?;
        self.chain()?;
        self.chain()?;
        self.chain()?;
        self.chain()?;
        Ok(())
    }
}
