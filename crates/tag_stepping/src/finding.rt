//! Elements and attributes by their names.

ghost use Rattle.std.specs.Prelude.{◌≡◌, IfSome, map};
ghost use Rattle.dtd_model.specs.Table.{declared_of};
ghost use Rattle.dtd_model.specs.TableOf.{table_of};
ghost use Rattle.page_model.specs.Attributes.{find_rule};
ghost use Rattle.page_model.specs.PageTokens.{element_of};
ghost use Rattle.page_steps.specs.TagSteps as steps;
ghost use Rattle.tag_stepping.specs.Found.{plain_rule};

use crate::element::TagElement;
use attribute_stepping::is_name_among;
use dtd_index::IndexedDtd;
use dtd_model::AttrRule;
use open_pieces::NameList;
use page_rules::{element, must_stand};

/// The declared element of this name.
pub fn declared<'a>(indexed: &'a IndexedDtd<'_>, name: &[char]) -> Option<TagElement<'a>>
    ensures rule { plain_rule result ≡ find_rule (table_of indexed.now.dtd.now).elements name.now }
    ensures place { IfSome result
        (λ found. found.element ≡ element_of (table_of indexed.now.dtd.now) name.now) }
{
    let element = element(indexed, name)?;
    Some(TagElement {
        element,
        rule: &indexed.dtd.elements[usize::from(element.0)],
    })
}

/// Whether all attributes that have to stand in a tag of this name are among these.
pub fn are_all(name: &[char], rules: &Vec<AttrRule>, names: &NameList) -> bool
    ensures { result ≡ steps.are_all name.now (map declared_of rules.now.items) names.now }
{
    for rule in rules {
        if must_stand(name, rule) && !is_name_among(names, &rule.name) {
            return false;
        }
    }
    true
}
