//! The form of a request file.

ghost use Rattle.std.specs.Prelude.{◌≡◌};
ghost use Rattle.serde_json.specs.View.{view, items_view, members_view};
ghost use Rattle.request_reading.specs.Names as names;
ghost use Rattle.request_reading.specs.RequestFile as spec;

use serde_json::{Map, Value};
use text_base::limits::TEXT_LIMIT;

/// Whether a value has the form of a request: an object that holds objects under the five names
/// alone, and in them strings, lists and objects, each text and each name of at most 16,777,216
/// bytes.
pub fn is_request(value: &Value) -> bool
    ensures { result ≡ spec.is_request (view value.now) }
{
    match value {
        Value::Object(members) => are_arrays(members),
        Value::Null | Value::Bool(_) | Value::Number(_) | Value::String(_) | Value::Array(_) =>
            false,
    }
}

fn are_arrays(members: &Map<String, Value>) -> bool
    ensures { result ≡ spec.are_arrays (members_view members.now.entries) }
{
    for (name, member) in members.iter() {
        if !(is_array_name(name.as_str()) && is_object(member) && is_member(member)) {
            return false;
        }
    }
    true
}

fn is_array_name(name: &str) -> bool
    ensures { result ≡ names.is_array_name name.now }
{
    name == "get" || name == "post" || name == "cookie" || name == "request" || name == "server"
}

fn is_object(value: &Value) -> bool
    ensures { result ≡ spec.is_object (view value.now) }
{
    match value {
        Value::Object(_) => true,
        Value::Null | Value::Bool(_) | Value::Number(_) | Value::String(_) | Value::Array(_) =>
            false,
    }
}

fn fits_text(text: &str) -> bool
    ensures { result ≡ spec.fits_text text.now }
{
    text.len() <= TEXT_LIMIT
}

#[cycle(member)]
fn is_member(value: &Value) -> bool
    ensures { result ≡ spec.is_member (view value.now) }
{
    match value {
        Value::Null | Value::Bool(_) | Value::Number(_) => false,
        Value::String(text) => fits_text(text.as_str()),
        Value::Array(items) => are_items(items),
        Value::Object(members) => are_members(members),
    }
}

#[cycle(member)]
fn are_items(items: &Vec<Value>) -> bool
    ensures { result ≡ spec.are_items (items_view items.now.items) }
{
    for item in items {
        if !is_member(item) {
            return false;
        }
    }
    true
}

#[cycle(member)]
fn are_members(members: &Map<String, Value>) -> bool
    ensures { result ≡ spec.are_members (members_view members.now.entries) }
{
    for (name, member) in members.iter() {
        if !(fits_text(name.as_str()) && is_member(member)) {
            return false;
        }
    }
    true
}
