//! Declared attributes.

ghost use Rattle.std.specs.Prelude.{◌≡◌, map};
ghost use Rattle.dtd_model.specs.Table.{declared_of};
ghost use Rattle.page_model.specs.Fronts as fronts;
ghost use Rattle.page_rules.specs.Found.{plain_declared};

use crate::is_named;
use dtd_model::AttrRule;

/// The declaration of the attribute of this name; none where none is declared (XML 1.0, 3.3).
pub fn find_declared<'d>(rules: &'d Vec<AttrRule>, name: &[char]) -> Option<&'d AttrRule>
    ensures { plain_declared result
        ≡ fronts.find_declared (map declared_of rules.now.items) name.now }
{
    for rule in rules {
        if is_named(&rule.name, name) {
            return Some(rule);
        }
    }
    None
}
