//! Document type declarations (XML 1.0, 2.8 and 4.2.2; XHTML 1.0, 3.1.1).

ghost use Rattle.std.specs.Prelude.{◌≡◌, OnOk};
ghost use Rattle.page_forms.specs.Doctypes as spec;
ghost use Rattle.form_maker.specs.Making.{changed, making_of, pushed};

use crate::class::ByteClass;
use crate::maker::Maker;
use dtd_model::DoctypeRule;
use text_base::NoMemory;

impl Maker {
    /// A system literal.
    fn system_literal(&mut self) -> Result<(), NoMemory>
        ensures { OnOk result (making_of self.new ≡ pushed spec.system_literal (making_of self.old)) }
    {
        self.other_than(b'"')?;
        self.star()?;
        self.quote(b'"')?;
        self.other_than(b'\'')?;
        self.star()?;
        self.quote(b'\'')?;
        self.either()?;
        Ok(())
    }

    /// A public literal.
    fn public_literal(&mut self) -> Result<(), NoMemory>
        ensures { OnOk result (making_of self.new ≡ pushed spec.public_literal (making_of self.old)) }
    {
        self.ascii(&ByteClass::PublicBut(b'"'))?;
        self.star()?;
        self.quote(b'"')?;
        self.ascii(&ByteClass::PublicBut(b'\''))?;
        self.star()?;
        self.quote(b'\'')?;
        self.either()?;
        Ok(())
    }

    /// The last expression, a public literal, behind `PUBLIC` and before a system literal.
    fn public(&mut self) -> Result<(), NoMemory>
        ensures { OnOk result (making_of self.new ≡ changed spec.public_form (making_of self.old)) }
    {
        self.gap()?;
        self.system_literal()?;
        self.chain()?;
        self.chain()?;
        self.gap()?;
        self.chain_before()?;
        self.word(b"PUBLIC")?;
        self.chain_before()?;
        self.gap()?;
        self.chain_before()?;
        Ok(())
    }

    /// `SYSTEM` and a system literal.
    fn system(&mut self) -> Result<(), NoMemory>
        ensures { OnOk result (making_of self.new ≡ pushed spec.system_form (making_of self.old)) }
    {
        self.gap()?;
        self.word(b"SYSTEM")?;
        self.gap()?;
        self.system_literal()?;
        self.chain()?;
        self.chain()?;
        self.chain()?;
        Ok(())
    }

    /// The identifier that a definition asks for, or any or none.
    fn identifier(&mut self, rule: DoctypeRule) -> Result<(), NoMemory>
        ensures { OnOk result
            (making_of self.new ≡ pushed (spec.identifier_form rule) (making_of self.old)) }
    {
        match rule {
            DoctypeRule::Strict => {
                self.quoted_word(b"-//W3C//DTD XHTML 1.0 Strict//EN")?;
                self.public()?;
            }
            DoctypeRule::Free => {
                self.empty()?;
                self.system()?;
                self.public_literal()?;
                self.public()?;
                self.either()?;
                self.either()?;
            }
        }
        Ok(())
    }

    /// Document type declarations.
    #[tactic(auto, unfolding(page_forms::specs::Doctypes::doctype_form))]
    pub fn doctype(&mut self, rule: DoctypeRule) -> Result<(), NoMemory>
        ensures { OnOk result
            (making_of self.new ≡ pushed (spec.doctype_form rule) (making_of self.old)) }
    {
        self.word(b"<!DOCTYPE")?;
        self.gap()?;
        self.word(b"html")?;
        self.identifier(rule)?;
        self.blanks()?;
        self.word(b">")?;
        self.chain()?;
        self.chain()?;
        self.chain()?;
        self.chain()?;
        self.chain()?;
        Ok(())
    }
}
