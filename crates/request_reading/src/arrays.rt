//! The arrays of a request, made of a value that has its form.

ghost use Rattle.std.specs.Prelude.{◌≡◌, ◌≤◌, true, Some, None, IfOk, OnOk};
ghost use Rattle.plain_values.specs.Plain.{Plain, depth, deepest};
ghost use Rattle.plain_values.specs.Lawful.{HasValues};
ghost use Rattle.plain_values.specs.Members.{put_pair};
ghost use Rattle.script_meaning.specs.Requests.{IsAdmitted};
ghost use Rattle.php_values.specs.View.{plain_of, plain_key};
ghost use Rattle.serde_json.specs.Data.{depth as nesting, items_depth, members_depth};
ghost use Rattle.serde_json.specs.Find.{get};
ghost use Rattle.serde_json.specs.View.{view, items_view, members_view};
ghost use Rattle.request_reading.specs.RequestFile as spec;
ghost use Rattle.request_reading.specs.Admission.{stray_path};

use crate::Request;
use php_values::{Array, Key, Text, Value};
use plain_values::Fault;
use serde_json::{Map, Value as JsonValue};
use std::alloc::Global;
use text_base::NoMemory;
use value_operations::key_of_text;

/// The request that a value stands for, which has the form of a request and whose texts and names
/// are all of XML's characters.
pub fn asked_request(alloc: Global, value: &JsonValue) -> Result<Request, NoMemory>
    requires form { spec.is_request (view value.now) ≡ true }
    requires admitted { stray_path (view value.now) ≡ None }
    requires nests { nesting (view value.now) ≤ 127 }
    ensures { IfOk result (λ request. request ≡ spec.asked_request (view value.now)) }
{
    let get = array_in(alloc, value, "get")?;
    let post = array_in(alloc, value, "post")?;
    let cookie = array_in(alloc, value, "cookie")?;
    let request = array_in(alloc, value, "request")?;
    let server = array_in(alloc, value, "server")?;
    Ok(Request::of(get, post, cookie, request, server))
}

// The array under one of the five names.
fn array_in(alloc: Global, value: &JsonValue, name: &str) -> Result<Array, NoMemory>
    requires form { spec.is_request (view value.now) ≡ true }
    requires admitted { stray_path (view value.now) ≡ None }
    requires nests { nesting (view value.now) ≤ 127 }
    ensures pairs { IfOk result (λ array. array ≡ spec.members_in (get name.now (view value.now))) }
    ensures admitted { IfOk result (λ array. IsAdmitted array) }
{
    match value.get(name) {
        Some(found) => {
            let array = members_array(alloc, found)?;
            Ok(array)
        }
        None => {
            let array = Array::new(alloc)?;
            Ok(array)
        }
    }
}

// The members of an object; what is none is empty.
fn members_array(alloc: Global, found: &JsonValue) -> Result<Array, NoMemory>
    requires form { spec.is_member (view found.now) ≡ true }
    requires nests { nesting (view found.now) ≤ 127 }
    ensures value { IfOk result (λ array. array ≡ spec.members_in (Some (view found.now))) }
    ensures lawful { IfOk result (λ array. HasValues (Plain.array array)) }
{
    match found {
        JsonValue::Object(members) => array_of(alloc, members),
        JsonValue::Null
        | JsonValue::Bool(_)
        | JsonValue::Number(_)
        | JsonValue::String(_)
        | JsonValue::Array(_) => Array::new(alloc),
    }
}

#[cycle(make)]
fn value_of(alloc: Global, value: &JsonValue) -> Result<Value, NoMemory>
    requires form { spec.is_member (view value.now) ≡ true }
    requires nests { nesting (view value.now) ≤ 127 }
    ensures value { IfOk result (λ made. plain_of made ≡ spec.value_of (view value.now)) }
    ensures lawful { IfOk result (λ made. HasValues (plain_of made)) }
{
    match value {
        JsonValue::Null | JsonValue::Bool(_) | JsonValue::Number(_) => Ok(Value::Null),
        JsonValue::String(text) => {
            let text = Text::from_short(alloc, text.as_bytes())?;
            Ok(Value::Text(text))
        }
        JsonValue::Array(items) => {
            let array = list_of(alloc, items)?;
            Ok(Value::Array(array))
        }
        JsonValue::Object(members) => {
            let array = array_of(alloc, members)?;
            Ok(Value::Array(array))
        }
    }
}

// The items of a list under their places.
#[cycle(make)]
fn list_of(alloc: Global, items: &Vec<JsonValue>) -> Result<Array, NoMemory>
    requires form { spec.are_items (items_view items.now.items) ≡ true }
    requires nests { items_depth (items_view items.now.items) ≤ 126 }
    ensures value { IfOk result (λ array. array ≡ spec.places_of 0 (items_view items.now.items)) }
    ensures lawful { IfOk result (λ array. HasValues (Plain.array array)) }
{
    let mut array = Array::new(alloc)?;
    for (place, item) in items.iter().enumerate() {
        let value = value_of(alloc, item)?;
        put(&mut array, Key::Int(place as i64), value)?;
    }
    Ok(array)
}

// The members of an object under their names.
#[cycle(make)]
fn array_of(alloc: Global, members: &Map<String, JsonValue>) -> Result<Array, NoMemory>
    requires form { spec.are_members (members_view members.now.entries) ≡ true }
    requires nests { members_depth (members_view members.now.entries) ≤ 126 }
    ensures value { IfOk result (λ array.
        array ≡ spec.members_of (members_view members.now.entries)) }
    ensures lawful { IfOk result (λ array. HasValues (Plain.array array)) }
{
    let mut array = Array::new(alloc)?;
    for (name, member) in members.iter() {
        let key = name_key(alloc, name.as_str())?;
        let value = value_of(alloc, member)?;
        put(&mut array, key, value)?;
    }
    Ok(array)
}

fn name_key(alloc: Global, name: &str) -> Result<Key, NoMemory>
    requires { spec.fits_text name.now ≡ true }
    ensures { IfOk result (λ key. plain_key key ≡ spec.name_key name.now) }
{
    let text = Text::from_short(alloc, name.as_bytes())?;
    key_of_text(alloc, &text)
}

// Puts a member at its key. What is nested so little is never too deep.
fn put(array: &mut Array, key: Key, value: Value) -> Result<(), NoMemory>
    requires array { deepest array.old ≤ 126 }
    requires value { depth (plain_of value) ≤ 126 }
    ensures { OnOk result (array.new ≡ put_pair array.old (plain_key key) (plain_of value)) }
{
    let Err(fault) = array.put(key, value) else {
        return Ok(());
    };
    match fault {
        Fault::Memory => Err(NoMemory),
        _ => unreachable!(),
    }
}
