//! Tags by what is declared (XML 1.0, 3.1 and 3.3).

ghost use Rattle.std.specs.Prelude.{◌≡◌, [], map, OnOk};
ghost use Rattle.dtd_model.specs.Table.{declared_of, presence_of, rule_of};
ghost use Rattle.dtd_model.specs.TableOf.{table_of};
ghost use Rattle.page_forms.specs.Simple.{end_tag_form};
ghost use Rattle.page_forms.specs.Tags as spec;
ghost use Rattle.page_model.specs.Attributes as attributes;
ghost use Rattle.form_maker.specs.Kept.{declared_behind, element_forms, keeping, HasShared, tag_forms};
ghost use Rattle.form_maker.specs.Making.{making_of, pushed};

use crate::maker::Maker;
use dtd_index::IndexedDtd;
use dtd_model::{AttrRule, ElementRule, Need};
use text_base::NoMemory;
use xml_text::is_name;

/// Whether an attribute is declared as one that has to stand.
fn is_required(need: &Need) -> bool
    ensures { result ≡ attributes.is_required (presence_of need.now) }
{
    match need {
        Need::Required => true,
        Need::Implied | Need::Default | Need::Fixed(_) => false,
    }
}

/// Whether an attribute has to stand in a tag of this name.
fn must_stand(tag: &[u8], rule: &AttrRule) -> bool
    ensures { result ≡ attributes.must_stand tag.now (declared_of rule.now) }
{
    is_required(&rule.need)
        || (tag == b"html".as_slice() && rule.name.as_slice() == b"xmlns".as_slice())
}

impl Maker {
    /// What stands behind the name of an attribute.
    fn value_behind(&mut self, indexed: &IndexedDtd<'_>, rule: &AttrRule) -> Result<(), NoMemory>
        ensures { HasShared (table_of indexed.now.dtd.now).entities (making_of self.old)
            → OnOk result (making_of self.new
            ≡ pushed (declared_behind (table_of indexed.now.dtd.now).entities (declared_of rule.now))
            (making_of self.old)) }
    {
        match &rule.need {
            Need::Fixed(wanted) => {
                let value = wanted.as_slice();
                self.fixed(indexed, &rule.kind, value, b'"')?;
                self.fixed(indexed, &rule.kind, value, b'\'')?;
                self.either()?;
                self.behind_equals()?;
                Ok(())
            }
            Need::Implied => {
                self.kind_behind(&rule.kind)?;
                Ok(())
            }
            Need::Required => {
                self.kind_behind(&rule.kind)?;
                Ok(())
            }
            Need::Default => {
                self.kind_behind(&rule.kind)?;
                Ok(())
            }
        }
    }

    /// An attribute.
    fn attribute(&mut self, indexed: &IndexedDtd<'_>, rule: &AttrRule) -> Result<(), NoMemory>
        ensures { HasShared (table_of indexed.now.dtd.now).entities (making_of self.old)
            → OnOk result (making_of self.new
            ≡ pushed (spec.attribute_form (table_of indexed.now.dtd.now).entities (declared_of rule.now))
            (making_of self.old)) }
    {
        let name = rule.name.as_slice();
        if is_name(name) {
            self.value_behind(indexed, rule)?;
            self.behind_name(name)?;
            return Ok(());
        }
        self.nothing()?;
        Ok(())
    }

    /// The attributes of a tag of this name, in any order.
    fn attributes(
        &mut self,
        indexed: &IndexedDtd<'_>,
        tag: &[u8],
        rules: &Vec<AttrRule>,
    ) -> Result<(), NoMemory>
        ensures { HasShared (table_of indexed.now.dtd.now).entities (making_of self.old)
            → OnOk result (making_of self.new
            ≡ pushed (spec.any_order (spec.attribute_members (table_of indexed.now.dtd.now).entities
            tag.now (map declared_of rules.now.items))) (making_of self.old)) }
    {
        self.empty()?;
        let mut left = rules.as_slice();
        while let Some((last, others)) = left.split_last() {
            self.attribute(indexed, last)?;
            self.member(must_stand(tag, last))?;
            left = others;
        }
        Ok(())
    }

    /// A tag that ends so.
    fn tag(
        &mut self,
        indexed: &IndexedDtd<'_>,
        rule: &ElementRule,
        closer: &[u8],
    ) -> Result<(), NoMemory>
        ensures { HasShared (table_of indexed.now.dtd.now).entities (making_of self.old)
            → OnOk result (making_of self.new
            ≡ pushed (spec.tag_form closer.now (table_of indexed.now.dtd.now).entities (rule_of rule.now))
            (making_of self.old)) }
    {
        let name = rule.name.as_slice();
        self.word(b"<")?;
        self.word(name)?;
        self.attributes(indexed, name, &rule.attributes)?;
        self.blanks()?;
        self.word(closer)?;
        self.chain()?;
        self.chain()?;
        self.chain()?;
        self.chain()?;
        Ok(())
    }

    /// The end tags of a name.
    fn end_tag(&mut self, name: &[u8]) -> Result<(), NoMemory>
        ensures { OnOk result
            (making_of self.new ≡ pushed (end_tag_form name.now) (making_of self.old)) }
    {
        self.word(b"</")?;
        self.word(name)?;
        self.blanks()?;
        self.word(b">")?;
        self.chain()?;
        self.chain()?;
        self.chain()?;
        Ok(())
    }

    /// Keeps the tags of an element: its start tags, its tags of empty elements, its end tags.
    #[tactic(auto, unfolding(page_forms::specs::Tags::start_tag_form, page_forms::specs::Tags::empty_tag_form))]
    fn element(&mut self, indexed: &IndexedDtd<'_>, rule: &ElementRule) -> Result<(), NoMemory>
        ensures { HasShared (table_of indexed.now.dtd.now).entities (making_of self.old)
            → OnOk result (making_of self.new
            ≡ keeping (element_forms (table_of indexed.now.dtd.now).entities (rule_of rule.now) [])
            (making_of self.old)) }
    {
        let name = rule.name.as_slice();
        self.tag(indexed, rule, b">")?;
        self.keep()?;
        self.tag(indexed, rule, b"/>")?;
        self.keep()?;
        self.end_tag(name)?;
        self.keep()?;
        Ok(())
    }

    /// Keeps the tags of all elements.
    pub(crate) fn elements(&mut self, indexed: &IndexedDtd<'_>) -> Result<(), NoMemory>
        ensures { HasShared (table_of indexed.now.dtd.now).entities (making_of self.old)
            → OnOk result (making_of self.new
            ≡ keeping (tag_forms (table_of indexed.now.dtd.now).entities
            (table_of indexed.now.dtd.now).elements) (making_of self.old)) }
    {
        for rule in &indexed.dtd.elements {
            self.element(indexed, rule)?;
        }
        Ok(())
    }
}
