//! Names that begin so.

ghost use Rattle.std.specs.Prelude.{◌≡◌, ◌++◌, map};
ghost use Rattle.std.specs.List.{list_any};
ghost use Rattle.dtd_model.specs.References.{known_entities};
ghost use Rattle.dtd_model.specs.Table.{rule_of};
ghost use Rattle.page_endings.specs.Ending as ending;
ghost use Rattle.open_pieces.specs.Views.{plain_reference};
ghost use Rattle.state_testing.specs.Views.{begins_so, names_of_elements};

use crate::beginnings::begins;
use dtd_model::ElementRule;
use open_pieces::OpenReference;
use text_base::Bytes;

/// Whether one of the names begins so.
pub fn any_begins(names: &Vec<Bytes>, front: &[char]) -> bool
    ensures { result ≡ list_any (begins_so front.now) names.now.items }
{
    for name in names {
        if begins(name.as_slice(), front) {
            return true;
        }
    }
    false
}

/// Whether the name of one of the elements begins so.
pub fn any_element_begins(elements: &Vec<ElementRule>, front: &[char]) -> bool
    ensures { result ≡ list_any (begins_so front.now)
        (names_of_elements (map rule_of elements.now.items)) }
{
    for rule in elements {
        if begins(rule.name.as_slice(), front) {
            return true;
        }
    }
    false
}

fn any_entity_begins(entities: &Vec<Bytes>, front: &[char]) -> bool
    ensures { result ≡ list_any (begins_so front.now) (known_entities ++ entities.now.items) }
{
    begins(b"amp", front)
        || (begins(b"lt", front)
            || (begins(b"gt", front)
                || (begins(b"quot", front)
                    || (begins(b"apos", front) || any_begins(entities, front)))))
}

/// Whether a reference may still come, where these are the declared entities: one of them, or of
/// the five of XML, begins so, and a number is not over those of characters (XML 1.0, 4.1).
pub fn reference_can_end(entities: &Vec<Bytes>, reference: &OpenReference) -> bool
    ensures { result ≡ ending.reference_can_end entities.now.items (plain_reference reference.now) }
{
    match reference {
        OpenReference::Entity(name) => any_entity_begins(entities, name.as_slice()),
        OpenReference::Number | OpenReference::HexadecimalBegin => true,
        OpenReference::Decimal(number) | OpenReference::Hexadecimal(number) => {
            *number <= 0x0010_FFFF
        }
    }
}
