//! The variables of a call.

ghost use Rattle.std.specs.Prelude.{◌≡◌, ℕ, ◌<◌, [], ◌++◌, List, length, slice_index_or, slice_set, IfOk, IfSome, OnOk};
ghost use Rattle.std.specs.Borrow.{Bor};
ghost use Rattle.plain_values.specs.Plain.{Plain, null};
ghost use Rattle.script_meaning.specs.Runs.{value_in, set_in};
ghost use Rattle.php_values.specs.View.{plain_of};
ghost use Rattle.expr_evaluator.specs.VariablesView.{plain_variables, place};

use indexmap::IndexMap;
use php_values::Value;
use std::alloc::Global;
use std::marker::Model;
use std::mem;
use text_base::{Bytes, NoMemory};

/// The variables of a function's call, or of the script outside functions, by their names, which
/// the script's tree holds: the parameters, and a map of the others. Contracts see them as a list
/// of names with plain values.
#[derive(Drop)]
pub struct Variables<'a> {
    parameters: Vec<(&'a [u8], Value)>,
    others: IndexMap<&'a [u8], Value>,
}

impl<'a> Model for Variables<'a> {
    ghost use Rattle.std.specs.Prelude.{◌++◌};
    ghost use Rattle.script_meaning.specs.Runs as runs;
    ghost use Rattle.expr_evaluator.specs.VariablesCode.{variables_code};

    ghost Value = { runs.Variables };

    ghost coded = { variables_code };

    ghost use Rattle.expr_evaluator.specs.VariablesView.{plain_variables};

    ghost view = { λ s. plain_variables s.parameters.items ++ plain_variables s.others.entries };
}

// The place of the first parameter of a name.
fn place_of(parameters: &[(&[u8], Value)], name: &[u8]) -> Option<usize>
    ensures place { result ≡ place name.now parameters.now }
    ensures within { IfSome result (λ i. i < length parameters.now) }
{
    let mut index = 0;
    while index < parameters.len() {
        if parameters[index].0 == name {
            return Some(index);
        }
        index += 1;
    }
    None
}

// The value of a variable that is no parameter.
fn other_value(others: &IndexMap<&[u8], Value>, name: &[u8]) -> Result<Value, NoMemory>
    ensures { IfOk result (λ v. plain_of v ≡ value_in (plain_variables others.now.entries) name.now) }
{
    match others.get(name) {
        None => Ok(Value::Null),
        Some(value) => {
            let value = value.share()?;
            Ok(value)
        }
    }
}

// The value of a variable.
fn value_of(
    parameters: &[(&[u8], Value)],
    others: &IndexMap<&[u8], Value>,
    name: &[u8],
) -> Result<Value, NoMemory>
    ensures { IfOk result (λ v. plain_of v
        ≡ value_in (plain_variables parameters.now ++ plain_variables others.now.entries) name.now) }
{
    match place_of(parameters, name) {
        Some(place) => {
            let value = parameters[place].1.share()?;
            Ok(value)
        }
        None => {
            let value = other_value(others, name)?;
            Ok(value)
        }
    }
}

// Writes a parameter, and gives its old value.
fn replace_parameter(parameters: &mut Vec<(&[u8], Value)>, place: usize, value: Value) -> Value
    requires { place < length parameters.old.items }
    ensures value { (d : Bor (List ℕ) × Value) → result
        ≡ (slice_index_or parameters.old.items place d).1 }
    ensures items { (d : Bor (List ℕ) × Value) → parameters.new.items
        ≡ slice_set parameters.old.items place
        ((slice_index_or parameters.old.items place d).0, value) }
{
    mem::replace(&mut parameters[place].1, value)
}

// Writes a variable that is no parameter, and gives its old value.
fn put_other<'a>(
    others: &mut IndexMap<&'a [u8], Value>,
    name: &'a [u8],
    value: Value,
) -> Result<Value, NoMemory>
    ensures value { IfOk result
        (λ v. plain_of v ≡ value_in (plain_variables others.old.entries) name.now) }
    ensures entries { OnOk result (plain_variables others.new.entries
        ≡ set_in (plain_variables others.old.entries) name.now (plain_of value)) }
{
    match others.insert(name, value)? {
        None => Ok(Value::Null),
        Some(old) => Ok(old),
    }
}

impl<'a> Variables<'a> {
    /// No variables. Takes no memory.
    pub fn new(alloc: Global) -> Variables<'a>
        ensures { result ≡ [] }
    {
        Variables {
            parameters: Vec::new(alloc),
            others: IndexMap::new(alloc),
        }
    }

    /// Variables that are parameters, in their order. Takes no memory.
    pub fn of(alloc: Global, parameters: Vec<(&'a [u8], Value)>) -> Variables<'a>
        ensures { result ≡ plain_variables parameters.entry.items }
    {
        Variables {
            parameters,
            others: IndexMap::new(alloc),
        }
    }

    /// The value of a variable; one that was never written is null. What it holds is not copied.
    pub fn get(&self, name: &Bytes) -> Result<Value, NoMemory>
        ensures { IfOk result (λ v. plain_of v ≡ value_in self.now name.now) }
    {
        let value = value_of(&self.parameters, &self.others, name.as_slice())?;
        Ok(value)
    }

    // Writes a variable, and gives its old value.
    fn replace(&mut self, name: &'a Bytes, value: Value) -> Result<Value, NoMemory>
        ensures value { IfOk result (λ v. plain_of v ≡ value_in self.old name.now) }
        ensures variables { OnOk result (self.new ≡ set_in self.old name.now (plain_of value)) }
    {
        match place_of(&self.parameters, name.as_slice()) {
            Some(place) => Ok(replace_parameter(&mut self.parameters, place, value)),
            None => {
                let old = put_other(&mut self.others, name.as_slice(), value)?;
                Ok(old)
            }
        }
    }

    /// Writes a variable.
    pub fn set(&mut self, name: &'a Bytes, value: Value) -> Result<(), NoMemory>
        ensures { OnOk result (self.new ≡ set_in self.old name.now (plain_of value)) }
    {
        let _old = self.replace(name, value)?;
        Ok(())
    }

    /// Takes the value of a variable, before a write of the variable, which is null until then: so
    /// a text or an array that nothing else holds can be written in place.
    pub fn take(&mut self, name: &'a Bytes) -> Result<Value, NoMemory>
        ensures value { IfOk result (λ v. plain_of v ≡ value_in self.old name.now) }
        ensures variables { OnOk result (self.new ≡ set_in self.old name.now null) }
    {
        let old = self.replace(name, Value::Null)?;
        Ok(old)
    }
}
