//! What is open directly behind the quote of a value.

ghost use Rattle.std.specs.Prelude.{◌≡◌};
ghost use Rattle.dtd_model.specs.Table.{declared_of, kind_of};
ghost use Rattle.page_steps.specs.ValueSteps as steps;
ghost use Rattle.open_pieces.specs.Views.{plain_value};

use dtd_model::{AttrKind, AttrRule, Need};
use open_pieces::{Characters, OpenValue};
use std::alloc::Global;

/// What is open directly behind the quote of a value, by how its attribute is declared (XML 1.0,
/// 3.3). Takes no memory.
pub fn value_start(alloc: Global, rule: &AttrRule) -> OpenValue
    ensures { plain_value result ≡ steps.value_start (declared_of rule.now) }
{
    match &rule.need {
        Need::Fixed(_) => OpenValue::Fixed(Characters::new(alloc)),
        Need::Implied | Need::Required | Need::Default => kind_start(alloc, &rule.kind),
    }
}

fn kind_start(alloc: Global, kind: &AttrKind) -> OpenValue
    ensures { plain_value result ≡ steps.kind_start (kind_of kind.now) }
{
    match kind {
        AttrKind::Cdata => OpenValue::Text,
        AttrKind::Choice(_) => OpenValue::Choice(Characters::new(alloc), false),
        AttrKind::Id
        | AttrKind::Idref
        | AttrKind::Idrefs
        | AttrKind::Nmtoken
        | AttrKind::Nmtokens => OpenValue::Words(false, false),
    }
}
