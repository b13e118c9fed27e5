//! The attributes of an element, as they are declared (XML 1.0, 3.3).

ghost use Rattle.std.specs.Prelude.{◌≡◌, IfOk};
ghost use Rattle.dtd_model.specs.TableOf.{table_of};
ghost use Rattle.page_steps.specs.TagSteps as steps;
ghost use Rattle.open_pieces.specs.Views.{plain_value};
ghost use Rattle.value_stepping.specs.Views.{plain_next};
ghost use Rattle.page_rules.specs.Found.{plain_declared};

use crate::names::is_among;
use dtd_index::IndexedDtd;
use dtd_model::AttrRule;
use open_pieces::{NameList, OpenValue};
use std::alloc::Global;
use text_base::NoMemory;
use value_ending::value_good;
use value_stepping::{value_start, value_step};

/// Whether the attribute is declared, and its name is not among these.
pub fn is_declared_once(names: &NameList, name: &[char], rule: Option<&AttrRule>) -> bool
    ensures { result ≡ steps.is_declared_once names.now name.now (plain_declared rule.entry) }
{
    match rule {
        None => false,
        Some(_) => !is_among(names, name),
    }
}

/// What is open directly behind the quote of its value. Takes no memory.
pub fn start_of(alloc: Global, rule: Option<&AttrRule>) -> OpenValue
    ensures { plain_value result ≡ steps.start_of (plain_declared rule.entry) }
{
    match rule {
        None => OpenValue::Text,
        Some(rule) => value_start(alloc, rule),
    }
}

/// One character more in its value.
pub fn step_of(
    alloc: Global,
    indexed: &IndexedDtd<'_>,
    rule: Option<&AttrRule>,
    value: &OpenValue,
    c: char,
) -> Result<Option<OpenValue>, NoMemory>
    ensures { IfOk result (λ next. plain_next next
        ≡ steps.step_of (table_of indexed.now.dtd.now).entities (plain_declared rule.entry)
        (plain_value value.now) c) }
{
    match rule {
        None => Ok(None),
        Some(rule) => value_step(alloc, indexed, rule, value, c),
    }
}

/// Whether its value may end there.
pub fn good_of(
    alloc: Global,
    indexed: &IndexedDtd<'_>,
    rule: Option<&AttrRule>,
    value: &OpenValue,
) -> Result<bool, NoMemory>
    ensures { IfOk result (λ good. good
        ≡ steps.good_of (table_of indexed.now.dtd.now).entities (plain_declared rule.entry)
        (plain_value value.now)) }
{
    match rule {
        None => Ok(false),
        Some(rule) => value_good(alloc, indexed, rule, value),
    }
}
