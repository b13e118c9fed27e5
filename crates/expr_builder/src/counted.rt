//! What the actions do that take a row of values off. Each call answers whether the values allow
//! it.

ghost use Rattle.std.specs.Prelude.{◌≡◌, [], IfOk};
ghost use Rattle.std.specs.Str.{str_to_ascii_lowercase};
ghost use Rattle.expr_machine.specs.Values as plain;
ghost use Rattle.expr_machine.specs.Values.{apply};
ghost use Rattle.expr_machine.specs.Actions.{join_action, isset_action, call_action, array_action, read_action, assign_action, update_action};
ghost use Rattle.expr_builder.specs.Views.{plain_value, plain_values};
ghost use Rattle.expr_builder.specs.Outcomes.{Applied};

use crate::nodes::{
    array_value, assign_value, call_value, isset_value, join_value, member_value, update_value,
};
use crate::trees::variable_tree;
use crate::value::Value;
use crate::values::Values;
use php_syntax::tree::UpdateSign;
use script_grammar::reserved::{is_known, is_writable};
use std::alloc::Global;
use text_base::{Bytes, NoMemory};

// The members of a value by keys, the first one of the value itself.
fn read_value(alloc: Global, array: Value, keys: Values) -> Result<Value, NoMemory>
    ensures { IfOk result (λ v. plain_value v
        ≡ plain.read_value (plain_value array) (plain_values keys)) }
{
    let mut value = array;
    let mut left = keys;
    'reading: while let Some(key) = left.pop() {
        value = member_value(alloc, value, key)?;
    }
    Ok(value)
}

// A name in lower case.
fn lowered(alloc: Global, name: &Bytes) -> Result<Bytes, NoMemory>
    ensures { IfOk result (λ b. b ≡ str_to_ascii_lowercase name.now) }
{
    let mut bytes = Vec::from_slice(alloc, name.as_slice())?;
    bytes.as_mut_slice().make_ascii_lowercase();
    Ok(Bytes::from_vec(bytes))
}

impl Values {
    /// So many operands of `.`.
    pub(crate) fn join(&mut self, alloc: Global, count: usize) -> Result<bool, NoMemory>
        ensures { IfOk result (λ fine.
            Applied fine (apply (join_action count) (plain_values self.old))
            (plain_values self.new)) }
    {
        match self.take_exprs(alloc, count)? {
            None => Ok(false),
            Some(row) => {
                self.push(join_value(row.exprs))?;
                Ok(true)
            }
        }
    }

    /// `isset` of so many values.
    pub(crate) fn isset(&mut self, alloc: Global, count: usize) -> Result<bool, NoMemory>
        ensures { IfOk result (λ fine.
            Applied fine (apply (isset_action count) (plain_values self.old))
            (plain_values self.new)) }
    {
        match self.take_exprs(alloc, count)? {
            None => Ok(false),
            Some(row) => {
                if !row.places {
                    return Ok(false);
                }
                self.push(isset_value(row.exprs))?;
                Ok(true)
            }
        }
    }

    /// A call of a function with so many arguments.
    pub(crate) fn call(
        &mut self,
        alloc: Global,
        name: &Bytes,
        count: usize,
    ) -> Result<bool, NoMemory>
        ensures { IfOk result (λ fine.
            Applied fine (apply (call_action name.now count) (plain_values self.old))
            (plain_values self.new)) }
    {
        let name = lowered(alloc, name)?;
        match self.take_exprs(alloc, count)? {
            None => Ok(false),
            Some(row) => {
                self.push(call_value(name, row.exprs))?;
                Ok(true)
            }
        }
    }

    /// An array of so many items.
    pub(crate) fn array(&mut self, alloc: Global, count: usize) -> Result<bool, NoMemory>
        ensures { IfOk result (λ fine.
            Applied fine (apply (array_action count) (plain_values self.old))
            (plain_values self.new)) }
    {
        match self.take_items(alloc, count)? {
            None => Ok(false),
            Some(row) => {
                self.push(array_value(row.items))?;
                Ok(true)
            }
        }
    }

    /// A member of a variable by so many keys.
    pub(crate) fn read(
        &mut self,
        alloc: Global,
        name: Bytes,
        count: usize,
    ) -> Result<bool, NoMemory>
        ensures { IfOk result (λ fine.
            Applied fine (apply (read_action name count) (plain_values self.old))
            (plain_values self.new)) }
    {
        match self.take_row(alloc, count)? {
            None => Ok(false),
            Some(keys) => {
                if !is_known(name.as_slice()) {
                    return Ok(false);
                }
                let array = Value::Known {
                    tree: variable_tree(name),
                    height: 1,
                };
                self.push(read_value(alloc, array, keys)?)?;
                Ok(true)
            }
        }
    }

    // An assignment of a value to a variable by so many keys.
    fn assign_taken(
        &mut self,
        alloc: Global,
        name: Bytes,
        count: usize,
        value: Value,
    ) -> Result<bool, NoMemory>
        ensures { IfOk result (λ fine.
            Applied fine (plain.apply_assign name (plain_value value)
            (plain.take_values count [] (plain_values self.old))) (plain_values self.new)) }
    {
        match self.take_path(alloc, count)? {
            None => Ok(false),
            Some(path) => {
                if !is_writable(name.as_slice()) {
                    return Ok(false);
                }
                if !path.before_last {
                    return Ok(false);
                }
                self.push(assign_value(alloc, name, path.keys, value)?)?;
                Ok(true)
            }
        }
    }

    /// An assignment of the last value to a variable by so many keys.
    #[tactic(auto, unfolding(expr_machine::specs::Values::apply))]
    pub(crate) fn assign(
        &mut self,
        alloc: Global,
        name: Bytes,
        count: usize,
    ) -> Result<bool, NoMemory>
        ensures { IfOk result (λ fine.
            Applied fine (apply (assign_action name count) (plain_values self.old))
            (plain_values self.new)) }
    {
        match self.pop() {
            None => Ok(false),
            Some(value) => self.assign_taken(alloc, name, count, value),
        }
    }

    // Such an assignment that reads its target first.
    fn update_taken(
        &mut self,
        alloc: Global,
        sign: UpdateSign,
        name: Bytes,
        count: usize,
        value: Value,
    ) -> Result<bool, NoMemory>
        ensures { IfOk result (λ fine.
            Applied fine (plain.apply_update sign name (plain_value value)
            (plain.take_values count [] (plain_values self.old))) (plain_values self.new)) }
    {
        match self.take_path(alloc, count)? {
            None => Ok(false),
            Some(path) => {
                if !is_writable(name.as_slice()) {
                    return Ok(false);
                }
                if !path.complete {
                    return Ok(false);
                }
                self.push(update_value(alloc, sign, name, path.keys, value)?)?;
                Ok(true)
            }
        }
    }

    /// An assignment of the last value that reads its target first.
    #[tactic(auto, unfolding(expr_machine::specs::Values::apply))]
    pub(crate) fn update(
        &mut self,
        alloc: Global,
        sign: UpdateSign,
        name: Bytes,
        count: usize,
    ) -> Result<bool, NoMemory>
        ensures { IfOk result (λ fine.
            Applied fine (apply (update_action sign name count) (plain_values self.old))
            (plain_values self.new)) }
    {
        match self.pop() {
            None => Ok(false),
            Some(value) => self.update_taken(alloc, sign, name, count, value),
        }
    }
}
