//! What may stand, as calls.

ghost use Rattle.std.specs.Prelude.{◌≡◌, IfOk};
ghost use Rattle.open_pieces.specs.Views.{plain_value};
ghost use Rattle.value_stepping.specs.Views.{plain_next};
ghost use Rattle.attribute_stepping.specs.Views.{plain_allowing};

use crate::allowed::Allowing;
use crate::declarations::{may_be_word, word_good, word_step};
use crate::elements::{good_of, is_declared_once, start_of, step_of};
use crate::names::{names_then, names_with};
use open_pieces::{Characters, NameList, OpenValue};
use page_rules::find_declared;
use std::alloc::Global;
use text_base::NoMemory;

impl Allowing<'_, '_> {
    /// Whether an attribute of this name may stand behind those of these names.
    pub fn may(&self, names: &NameList, name: &Characters) -> bool
        ensures { result ≡ (plain_allowing self.now).may names.now name.now }
    {
        match self {
            Allowing::Element(_, rules) => {
                let name = name.as_slice();
                is_declared_once(names, name, find_declared(rules, name))
            }
            Allowing::Declaration => may_be_word(names, name.as_slice()),
        }
    }

    /// The names that stand behind an attribute of this name.
    pub fn added(
        &self,
        alloc: Global,
        names: &NameList,
        name: &Characters,
    ) -> Result<NameList, NoMemory>
        ensures { IfOk result (λ more. more ≡ (plain_allowing self.now).added names.now name.now) }
    {
        match self {
            Allowing::Element(_, rules) => names_with(alloc, rules, names, name.as_slice()),
            Allowing::Declaration => names_then(alloc, names, name),
        }
    }

    /// What is open directly behind the quote of a value. Takes no memory.
    pub fn start(&self, alloc: Global, name: &Characters) -> OpenValue
        ensures { plain_value result ≡ (plain_allowing self.now).start name.now }
    {
        match self {
            Allowing::Element(_, rules) => start_of(alloc, find_declared(rules, name.as_slice())),
            Allowing::Declaration => OpenValue::Fixed(Characters::new(alloc)),
        }
    }

    /// One character more in a value; none where no value goes on so.
    pub fn step(
        &self,
        alloc: Global,
        name: &Characters,
        value: &OpenValue,
        c: char,
    ) -> Result<Option<OpenValue>, NoMemory>
        ensures { IfOk result
            (λ next. plain_next next
            ≡ (plain_allowing self.now).step name.now (plain_value value.now) c) }
    {
        match self {
            Allowing::Element(indexed, rules) => {
                let rule = find_declared(rules, name.as_slice());
                step_of(alloc, indexed, rule, value, c)
            }
            Allowing::Declaration => word_step(alloc, value, c),
        }
    }

    /// Whether a value may end there.
    pub fn good(
        &self,
        alloc: Global,
        name: &Characters,
        value: &OpenValue,
    ) -> Result<bool, NoMemory>
        ensures { IfOk result
            (λ good. good ≡ (plain_allowing self.now).good name.now (plain_value value.now)) }
    {
        match self {
            Allowing::Element(indexed, rules) => {
                let rule = find_declared(rules, name.as_slice());
                good_of(alloc, indexed, rule, value)
            }
            Allowing::Declaration => Ok(word_good(name.as_slice(), value)),
        }
    }
}
