//! The path to the first text or name of a request file that is not of XML's characters.

ghost use Rattle.std.specs.Prelude.{◌≡◌, false, Some, None, if◌then◌else◌, IfOk, OnOk};
ghost use Rattle.serde_json.specs.View.{view, items_view, members_view};
ghost use Rattle.request_reading.specs.Admission as spec;

use serde_json::{Map, Value};
use std::alloc::Global;
use text_base::{Bytes, NoMemory};
use xml_text::is_text as is_xml_text;

/// The path to the first text or name of a request file that is not of XML's characters, if there
/// is one.
pub fn stray_path(alloc: Global, value: &Value) -> Result<Option<Bytes>, NoMemory>
    ensures { IfOk result (λ path. path ≡ spec.stray_path (view value.now)) }
{
    match value {
        Value::Object(arrays) => stray_array(alloc, arrays),
        Value::Null | Value::Bool(_) | Value::Number(_) | Value::String(_) | Value::Array(_) => Ok(
            None,
        ),
    }
}

fn stray_array(alloc: Global, arrays: &Map<String, Value>) -> Result<Option<Bytes>, NoMemory>
    ensures { IfOk result (λ path. path ≡ spec.stray_array (members_view arrays.now.entries)) }
{
    for (name, array) in arrays.iter() {
        let mut path = Vec::from_slice(alloc, name.as_bytes())?;
        if !is_text(name.as_str()) {
            return Ok(Some(Bytes::from_vec(path)));
        }
        if stray_in(alloc, &mut path, array)? {
            return Ok(Some(Bytes::from_vec(path)));
        }
    }
    Ok(None)
}

fn is_text(text: &str) -> bool
    ensures { result ≡ spec.is_text text.now }
{
    is_xml_text(text.as_bytes())
}

// Whether there is such a text or name in a value that stands at this path. The path then becomes
// that of the first one, and else stays.
#[cycle(stray)]
fn stray_in(alloc: Global, path: &mut Vec<u8>, value: &Value) -> Result<bool, NoMemory>
    ensures path { IfOk result (λ is_stray. spec.stray_in path.old.items (view value.now)
        ≡ (if is_stray then Some path.new.items else None)) }
    ensures kept { IfOk result (λ is_stray. is_stray ≡ false → path.new.items ≡ path.old.items) }
{
    match value {
        Value::Null | Value::Bool(_) | Value::Number(_) => Ok(false),
        Value::String(text) => Ok(!is_text(text.as_str())),
        Value::Array(items) => stray_item(alloc, path, items),
        Value::Object(members) => stray_member(alloc, path, members),
    }
}

#[cycle(stray)]
fn stray_item(alloc: Global, path: &mut Vec<u8>, items: &Vec<Value>) -> Result<bool, NoMemory>
    ensures path { IfOk result
        (λ is_stray. spec.stray_item path.old.items 0 (items_view items.now.items)
        ≡ (if is_stray then Some path.new.items else None)) }
    ensures kept { IfOk result (λ is_stray. is_stray ≡ false → path.new.items ≡ path.old.items) }
{
    for (place, item) in items.iter().enumerate() {
        let digits = format!(in alloc; "{place}")?;
        if stray_below(alloc, path, digits.as_str(), item)? {
            return Ok(true);
        }
    }
    Ok(false)
}

#[cycle(stray)]
fn stray_member(
    alloc: Global,
    path: &mut Vec<u8>,
    members: &Map<String, Value>,
) -> Result<bool, NoMemory>
    ensures path { IfOk result (λ is_stray.
        spec.stray_member path.old.items (members_view members.now.entries)
        ≡ (if is_stray then Some path.new.items else None)) }
    ensures kept { IfOk result (λ is_stray. is_stray ≡ false → path.new.items ≡ path.old.items) }
{
    for (name, member) in members.iter() {
        if !is_text(name.as_str()) {
            go_below(path, name.as_str())?;
            return Ok(true);
        }
        if stray_below(alloc, path, name.as_str(), member)? {
            return Ok(true);
        }
    }
    Ok(false)
}

// As `stray_in`, of a value that stands below this path under this name.
#[cycle(stray)]
fn stray_below(
    alloc: Global,
    path: &mut Vec<u8>,
    name: &str,
    value: &Value,
) -> Result<bool, NoMemory>
    ensures path { IfOk result (λ is_stray.
        spec.stray_in (spec.below path.old.items name.now) (view value.now)
        ≡ (if is_stray then Some path.new.items else None)) }
    ensures kept { IfOk result (λ is_stray. is_stray ≡ false → path.new.items ≡ path.old.items) }
{
    let end = path.len();
    go_below(path, name)?;
    if stray_in(alloc, path, value)? {
        return Ok(true);
    }
    path.truncate(end);
    Ok(false)
}

fn go_below(path: &mut Vec<u8>, name: &str) -> Result<(), NoMemory>
    ensures { OnOk result (path.new.items ≡ spec.below path.old.items name.now) }
{
    path.push(b'.')?;
    path.extend_from_slice(name.as_bytes())?;
    Ok(())
}
