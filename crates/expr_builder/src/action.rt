//! What the moves of the machine do with the values, and the calls that do it.

ghost use Rattle.std.specs.Prelude.{◌∷◌, [], IfOk};
ghost use Rattle.expr_machine.specs.Actions.{array_action};
ghost use Rattle.expr_machine.specs.Machine.{item_actions};
ghost use Rattle.expr_machine.specs.Values.{apply, execute};
ghost use Rattle.expr_builder.specs.Views.{plain_values};
ghost use Rattle.expr_builder.specs.Outcomes.{Applied, AppliedFirst, plain_action, plain_actions};

use crate::values::Values;
use php_syntax::token::Part;
use php_syntax::tree::{Expr, UpdateSign};
use script_grammar::operator::{Operator, Prefix};
use std::alloc::Global;
use text_base::{Bytes, NoMemory};

/// What is done with the values that were made.
#[derive(Drop)]
pub enum Action {
    /// A literal is made.
    Leaf(Expr),
    /// A key is left out.
    Absent,
    /// An operator before the last value.
    Prefix(Prefix),
    /// An operator between the last two values.
    Binary(Operator),
    /// `.` between so many values.
    Join(usize),
    /// `??` between the last two values.
    Coalesce,
    /// `?:` between the last two values.
    ShortChoice,
    /// `?` and `:` between the last three values.
    FullChoice,
    /// A member of the value before the last one.
    Member,
    /// A member of a variable by so many keys.
    Read(Bytes, usize),
    /// An assignment of the last value to a variable by so many keys.
    Assign(Bytes, usize),
    /// Such an assignment that reads its target first.
    Update(UpdateSign, Bytes, usize),
    /// A variable goes up or down, and whether the sign stands before it.
    Step { name: Bytes, up: bool, before: bool },
    /// `isset` of so many values.
    Isset(usize),
    /// `empty` of the last value.
    Empty,
    /// An array of so many items.
    Array(usize),
    /// A call of a function with so many arguments.
    Call(Bytes, usize),
}

/// What one move of the machine does with the values.
#[derive(Drop)]
pub enum Actions<'a> {
    /// Nothing.
    Nothing,
    /// One action.
    One(Action),
    /// A text in which variables are read, of these parts.
    Template(&'a [Part]),
    /// An item of an array, with a key or not.
    Item { keyed: bool },
    /// The last item of an array, with a key or not, and the array of so many items.
    Items { keyed: bool, count: usize },
}

impl Values {
    // One action.
    fn apply(&mut self, alloc: Global, action: Action) -> Result<bool, NoMemory>
        ensures { IfOk result (λ fine.
            Applied fine (apply (plain_action action) (plain_values self.old))
            (plain_values self.new)) }
    {
        match action {
            Action::Leaf(tree) => {
                self.leaf(tree)?;
                Ok(true)
            }
            Action::Absent => {
                self.absent()?;
                Ok(true)
            }
            Action::Prefix(prefix) => self.prefix(alloc, prefix),
            Action::Binary(operator) => self.binary(alloc, operator),
            Action::Join(count) => self.join(alloc, count),
            Action::Coalesce => self.coalesce(alloc),
            Action::ShortChoice => self.short_choice(alloc),
            Action::FullChoice => self.full_choice(alloc),
            Action::Member => self.member(alloc),
            Action::Read(name, count) => self.read(alloc, name, count),
            Action::Assign(name, count) => self.assign(alloc, name, count),
            Action::Update(sign, name, count) => self.update(alloc, sign, name, count),
            Action::Step { name, up, before } => self.step(name, up, before),
            Action::Isset(count) => self.isset(alloc, count),
            Action::Empty => self.empty(alloc),
            Action::Array(count) => self.array(alloc, count),
            Action::Call(name, count) => self.call(alloc, &name, count),
        }
    }

    // The last item of an array, with a key or not.
    fn end_item(&mut self, keyed: bool) -> Result<bool, NoMemory>
        ensures { IfOk result (λ fine.
            AppliedFirst fine (item_actions keyed) (plain_values self.old)
            (plain_values self.new)) }
    {
        if keyed {
            return Ok(true);
        }
        self.unkeyed()
    }

    // The last item of an array, and the array of so many items.
    fn end_items(&mut self, alloc: Global, keyed: bool, count: usize) -> Result<bool, NoMemory>
        ensures { IfOk result (λ fine.
            Applied fine (execute (item_actions keyed (array_action count ∷ []))
            (plain_values self.old)) (plain_values self.new)) }
    {
        let fine = self.end_item(keyed)?;
        if !fine {
            return Ok(false);
        }
        self.array(alloc, count)
    }

    /// Does what a move asks for; false where the values do not allow it: they are too few, or a
    /// rule of the language is broken. Then they are of no use.
    pub fn perform(&mut self, alloc: Global, actions: Actions) -> Result<bool, NoMemory>
        ensures { IfOk result (λ fine.
            Applied fine (execute (plain_actions actions.entry) (plain_values self.old))
            (plain_values self.new)) }
    {
        match actions {
            Actions::Nothing => Ok(true),
            Actions::One(action) => self.apply(alloc, action),
            Actions::Template(parts) => self.template(alloc, parts),
            Actions::Item { keyed } => self.end_item(keyed),
            Actions::Items { keyed, count } => self.end_items(alloc, keyed, count),
        }
    }
}
