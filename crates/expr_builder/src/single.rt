//! What the actions of the machine do with the values. Each call answers whether the values allow
//! it: they do not where they are too few, or where a rule of the language is broken.

ghost use Rattle.std.specs.Prelude.{◌≡◌, ℕ, Some, true, OnOk, IfOk};
ghost use Rattle.php_syntax.specs.Trees.{plain_expr};
ghost use Rattle.expr_machine.specs.Values.{apply};
ghost use Rattle.expr_machine.specs.Actions.{leaf_action, variable_action, absent_action, unkeyed_action, prefix_action, binary_action, coalesce_action, short_choice_action, full_choice_action, member_action, step_action, empty_action};
ghost use Rattle.expr_builder.specs.Views.{plain_value, plain_values};
ghost use Rattle.expr_builder.specs.Outcomes.{Applied};

use crate::nodes::{
    binary_value, coalesce_value, empty_value, full_choice_value, member_value, prefix_value,
    short_choice_value,
};
use crate::trees::variable_tree;
use crate::value::Value;
use crate::values::Values;
use php_syntax::tree::Expr;
use script_grammar::operator::{Operator, Prefix};
use script_grammar::reserved::{is_known, is_writable};
use std::alloc::Global;
use text_base::{Bytes, NoMemory};

impl Values {
    /// A literal.
    #[tactic(auto, unfolding(expr_machine::specs::Values::apply))]
    pub(crate) fn leaf(&mut self, tree: Expr) -> Result<(), NoMemory>
        ensures { OnOk result (apply (leaf_action (plain_expr tree)) (plain_values self.old)
            ≡ Some (plain_values self.new)) }
    {
        self.push(Value::Known { tree, height: 1 })
    }

    /// A variable.
    #[tactic(auto, unfolding(expr_machine::specs::Values::apply))]
    pub(crate) fn variable(&mut self, name: Bytes) -> Result<bool, NoMemory>
        ensures { IfOk result (λ fine.
            Applied fine (apply (variable_action name) (plain_values self.old))
            (plain_values self.new)) }
    {
        if !is_known(name.as_slice()) {
            return Ok(false);
        }
        self.push(Value::Known {
            tree: variable_tree(name),
            height: 1,
        })?;
        Ok(true)
    }

    /// A key that is left out.
    #[tactic(auto, unfolding(expr_machine::specs::Values::apply))]
    pub(crate) fn absent(&mut self) -> Result<(), NoMemory>
        ensures { OnOk result (apply absent_action (plain_values self.old)
            ≡ Some (plain_values self.new)) }
    {
        self.push(Value::Absent)
    }

    /// The last value is that of an item without a key.
    #[tactic(auto, unfolding(expr_machine::specs::Values::apply))]
    pub(crate) fn unkeyed(&mut self) -> Result<bool, NoMemory>
        ensures { IfOk result (λ fine.
            Applied fine (apply unkeyed_action (plain_values self.old)) (plain_values self.new)) }
    {
        match self.pop() {
            None => Ok(false),
            Some(value) => {
                self.push(Value::Absent)?;
                self.push(value)?;
                Ok(true)
            }
        }
    }

    /// An operator before the last value.
    #[tactic(auto, unfolding(expr_machine::specs::Values::apply))]
    pub(crate) fn prefix(&mut self, alloc: Global, prefix: Prefix) -> Result<bool, NoMemory>
        ensures { IfOk result (λ fine.
            Applied fine (apply (prefix_action prefix) (plain_values self.old))
            (plain_values self.new)) }
    {
        match self.pop() {
            None => Ok(false),
            Some(operand) => {
                self.push(prefix_value(alloc, prefix, operand)?)?;
                Ok(true)
            }
        }
    }

    /// An operator between the last two values.
    #[tactic(auto, unfolding(expr_machine::specs::Values::apply))]
    pub(crate) fn binary(&mut self, alloc: Global, operator: Operator) -> Result<bool, NoMemory>
        ensures { IfOk result (λ fine.
            Applied fine (apply (binary_action operator) (plain_values self.old))
            (plain_values self.new)) }
    {
        match self.pop_two() {
            None => Ok(false),
            Some((left, right)) => {
                self.push(binary_value(alloc, operator, left, right)?)?;
                Ok(true)
            }
        }
    }

    /// `??` between the last two values.
    #[tactic(auto, unfolding(expr_machine::specs::Values::apply))]
    pub(crate) fn coalesce(&mut self, alloc: Global) -> Result<bool, NoMemory>
        ensures { IfOk result (λ fine.
            Applied fine (apply coalesce_action (plain_values self.old)) (plain_values self.new)) }
    {
        match self.pop_two() {
            None => Ok(false),
            Some((left, right)) => {
                self.push(coalesce_value(alloc, left, right)?)?;
                Ok(true)
            }
        }
    }

    /// `?:` between the last two values.
    #[tactic(auto, unfolding(expr_machine::specs::Values::apply))]
    pub(crate) fn short_choice(&mut self, alloc: Global) -> Result<bool, NoMemory>
        ensures { IfOk result (λ fine.
            Applied fine (apply short_choice_action (plain_values self.old))
            (plain_values self.new)) }
    {
        match self.pop_two() {
            None => Ok(false),
            Some((left, right)) => {
                self.push(short_choice_value(alloc, left, right)?)?;
                Ok(true)
            }
        }
    }

    /// `?` and `:` between the last three values.
    #[tactic(auto, unfolding(expr_machine::specs::Values::apply))]
    pub(crate) fn full_choice(&mut self, alloc: Global) -> Result<bool, NoMemory>
        ensures { IfOk result (λ fine.
            Applied fine (apply full_choice_action (plain_values self.old))
            (plain_values self.new)) }
    {
        match self.pop_two() {
            None => Ok(false),
            Some((middle, right)) => match self.pop() {
                None => Ok(false),
                Some(condition) => {
                    self.push(full_choice_value(alloc, condition, middle, right)?)?;
                    Ok(true)
                }
            },
        }
    }

    /// A member of the value before the last one.
    #[tactic(auto, unfolding(expr_machine::specs::Values::apply))]
    pub(crate) fn member(&mut self, alloc: Global) -> Result<bool, NoMemory>
        ensures { IfOk result (λ fine.
            Applied fine (apply member_action (plain_values self.old)) (plain_values self.new)) }
    {
        match self.pop_two() {
            None => Ok(false),
            Some((array, key)) => {
                self.push(member_value(alloc, array, key)?)?;
                Ok(true)
            }
        }
    }

    /// A variable goes up or down.
    #[tactic(auto, using(php_syntax::proofs::Views::views), unfolding(expr_machine::specs::Values::apply))]
    pub(crate) fn step(&mut self, name: Bytes, up: bool, before: bool) -> Result<bool, NoMemory>
        ensures { IfOk result (λ fine.
            Applied fine (apply (step_action name up before) (plain_values self.old))
            (plain_values self.new)) }
    {
        if !is_writable(name.as_slice()) {
            return Ok(false);
        }
        self.push(Value::Known {
            tree: Expr::Step { name, up, before },
            height: 1,
        })?;
        Ok(true)
    }

    /// `empty` of the last value.
    #[tactic(auto, unfolding(expr_machine::specs::Values::apply))]
    pub(crate) fn empty(&mut self, alloc: Global) -> Result<bool, NoMemory>
        ensures { IfOk result (λ fine.
            Applied fine (apply empty_action (plain_values self.old)) (plain_values self.new)) }
    {
        match self.pop() {
            None => Ok(false),
            Some(value) => {
                if !value.is_place() {
                    return Ok(false);
                }
                self.push(empty_value(alloc, value)?)?;
                Ok(true)
            }
        }
    }
}
