//! The members of a table, and what each says.

ghost use Rattle.std.specs.Prelude.{◌≡◌, ◌++◌, IfOk, OnOk, option_map, string_bytes};
ghost use Rattle.toml.specs.Data.{string};
ghost use Rattle.toml.specs.View.{view, table_view};
ghost use Rattle.call_options.specs.Members as spec;
ghost use Rattle.call_options.specs.Views.{kind_as, settings_as};

use crate::setting::{Kind, Setting};
use std::alloc::Global;
use text_base::NoMemory;
use toml::{Table, Value};

/// The kind of the member of this name.
fn kind_of(name: &str) -> Option<Kind>
    ensures { option_map kind_as result ≡ spec.kind_of name.now }
{
    if name == "dtd" {
        return Some(Kind::Name);
    }
    if name == "limit" {
        return Some(Kind::Number);
    }
    if name == "root" || name == "stubs" {
        return Some(Kind::Name);
    }
    None
}

/// Whether words may have the text as a value.
fn is_plain(text: &[u8]) -> bool
    ensures { result ≡ spec.is_plain text.now }
{
    match text {
        [] => false,
        [_] => true,
        [first, _, ..] => *first != b'-',
    }
}

/// The number as words have it, where it is one that they may have.
fn number_text(alloc: Global, number: i64) -> Result<Option<String>, NoMemory>
    ensures { IfOk result (λ text. option_map string_bytes text ≡ spec.number_text number) }
{
    if number > 0 && number < 100_000_000 {
        return Ok(Some(number.to_string(alloc)?));
    }
    Ok(None)
}

/// The text as words have it, where they may have it.
fn name_text(alloc: Global, text: &str) -> Result<Option<String>, NoMemory>
    ensures { IfOk result
        (λ name. option_map string_bytes name ≡ spec.name_value (string text.now)) }
{
    if is_plain(text.as_bytes()) {
        return Ok(Some(String::from_str(alloc, text)?));
    }
    Ok(None)
}

/// The value of an option of this kind, where the member's is one.
fn value_of(alloc: Global, value: &Value, kind: Kind) -> Result<Option<String>, NoMemory>
    ensures { IfOk result
        (λ text. option_map string_bytes text ≡ spec.value_of (view value.now) (kind_as kind)) }
{
    match kind {
        Kind::Name => match value.as_str() {
            Some(text) => name_text(alloc, text),
            None => Ok(None),
        },
        Kind::Number => match value.as_integer() {
            Some(number) => number_text(alloc, number),
            None => Ok(None),
        },
    }
}

/// The value of the option that a member says.
fn said_by(alloc: Global, name: &str, value: &Value) -> Result<Option<String>, NoMemory>
    ensures { IfOk result
        (λ text. option_map string_bytes text ≡ spec.said_by name.now (view value.now)) }
{
    match kind_of(name) {
        Some(kind) => value_of(alloc, value, kind),
        None => Ok(None),
    }
}

/// The first member of a table that says no option.
pub(crate) fn first_refused(alloc: Global, table: &Table) -> Result<Option<String>, NoMemory>
    ensures { IfOk result
        (λ name. option_map string_bytes name ≡ spec.first_refused (table_view table.now)) }
{
    for (name, value) in table.iter() {
        if said_by(alloc, name.as_str(), value)?.is_none() {
            return Ok(Some(String::from_str(alloc, name.as_str())?));
        }
    }
    Ok(None)
}

/// Puts the option of this name behind others, where it has a value.
fn add_setting(
    alloc: Global,
    settings: &mut Vec<Setting>,
    name: &str,
    value: Option<String>,
) -> Result<(), NoMemory>
    ensures { OnOk result (settings_as settings.new.items ≡ settings_as settings.old.items
        ++ spec.setting_list name.now (option_map string_bytes value)) }
{
    let Some(value) = value else {
        return Ok(());
    };
    let name = String::from_str(alloc, name)?;
    settings.push(Setting { name, value })?;
    Ok(())
}

/// The options that the members of a table say.
pub(crate) fn settings_in(alloc: Global, table: &Table) -> Result<Vec<Setting>, NoMemory>
    ensures { IfOk result
        (λ settings. settings_as settings.items ≡ spec.settings_in (table_view table.now)) }
{
    let mut settings = Vec::new(alloc);
    for (name, value) in table.iter() {
        let said = said_by(alloc, name.as_str(), value)?;
        add_setting(alloc, &mut settings, name.as_str(), said)?;
    }
    Ok(settings)
}
