//! Where values may end.

ghost use Rattle.std.specs.Prelude.{◌≡◌, ◌&&◌, IfOk};
ghost use Rattle.dtd_model.specs.References as references;
ghost use Rattle.dtd_model.specs.Table.{declared_of, kind_of};
ghost use Rattle.dtd_model.specs.TableOf.{table_of};
ghost use Rattle.page_model.specs.OpenValues.{in_fixed};
ghost use Rattle.page_steps.specs.ValueSteps as steps;
ghost use Rattle.open_pieces.specs.Views.{plain_value};

use dtd_index::IndexedDtd;
use dtd_model::{AttrKind, AttrRule};
use open_pieces::OpenValue;
use page_rules::{has_value, is_one_of, is_some, refers, refers_to_known};
use std::alloc::Global;
use text_base::NoMemory;

/// Whether a value may end there, by how its attribute is declared (XML 1.0, 3.3). Takes memory for
/// a fixed value alone.
pub fn value_good(
    alloc: Global,
    indexed: &IndexedDtd<'_>,
    rule: &AttrRule,
    value: &OpenValue,
) -> Result<bool, NoMemory>
    ensures { IfOk result (λ good. good
        ≡ steps.value_good (table_of indexed.now.dtd.now).entities (declared_of rule.now)
        (plain_value value.now)) }
{
    match value {
        OpenValue::Text => Ok(true),
        OpenValue::Reference(_) => Ok(false),
        OpenValue::Fixed(text) => fixed_good(alloc, indexed, rule, text.as_slice()),
        OpenValue::Choice(word, _) => Ok(choice_good(&rule.kind, word.as_slice())),
        OpenValue::Words(is_inside, is_one) => Ok(*is_inside || *is_one),
    }
}

fn fixed_good(
    alloc: Global,
    indexed: &IndexedDtd<'_>,
    rule: &AttrRule,
    value: &[char],
) -> Result<bool, NoMemory>
    ensures { IfOk result (λ good. good
        ≡ steps.value_good (table_of indexed.now.dtd.now).entities (declared_of rule.now)
        (in_fixed value.now)) }
{
    if refers(value) && refers_to_known(indexed, value) {
        has_value(alloc, rule, value)
    } else {
        Ok(false)
    }
}

fn choice_good(kind: &AttrKind, word: &[char]) -> bool
    ensures { result ≡ (references.is_some word.now && steps.is_chosen (kind_of kind.now) word.now) }
{
    is_some(word) && is_chosen(kind, word)
}

// Whether the word is one of the choice.
fn is_chosen(kind: &AttrKind, word: &[char]) -> bool
    ensures { result ≡ steps.is_chosen (kind_of kind.now) word.now }
{
    match kind {
        AttrKind::Choice(tokens) => is_one_of(word, tokens),
        AttrKind::Cdata
        | AttrKind::Id
        | AttrKind::Idref
        | AttrKind::Idrefs
        | AttrKind::Nmtoken
        | AttrKind::Nmtokens => false,
    }
}
