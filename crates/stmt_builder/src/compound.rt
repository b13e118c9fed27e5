//! Statements with bodies.

ghost use Rattle.std.specs.Prelude.{◌≡◌, IfOk};
ghost use Rattle.stmt_machine.specs.Actions.{if_action, loop_action, do_action};
ghost use Rattle.stmt_machine.specs.Made as plain;
ghost use Rattle.stmt_machine.specs.Made.{apply_stmt};
ghost use Rattle.stmt_machine.specs.declared.frame.Loop.TheVariants as loops;
ghost use Rattle.stmt_builder.specs.Views.{made_of, row_of};
ghost use Rattle.stmt_builder.specs.Answers.{Does};

use crate::body::{Row, empty_row, gather_arms, take_rows};
use crate::maker::Maker;
use crate::names::maybe_writable;
use crate::nodes::{do_node, each_node, for_node, if_node, maybe_value, while_node};
use crate::rows::gather_exprs;
use script_grammar::reserved::is_writable;
use std::alloc::Global;
use stmt_machine::frame::Loop;
use text_base::{Bytes, NoMemory};

impl Maker {
    // An `if` of so many arms, and of what stands behind the last `else`.
    fn put_if_stmt(
        &mut self,
        alloc: Global,
        count: usize,
        last: Option<Row>,
    ) -> Result<bool, NoMemory>
        ensures { IfOk result (λ done.
            Does (plain.put_if_stmt count (row_of last) (made_of self.old).bodies
            (made_of self.old)) done (made_of self.new)) }
    {
        let Some(rows) = take_rows(alloc, &mut self.bodies, count)? else {
            return Ok(false);
        };
        let Some(conditions) = self.values.take_row(alloc, count)? else {
            return Ok(false);
        };
        let arms = gather_arms(alloc, conditions, rows)?;
        self.put(if_node(arms, last))
    }

    /// The end of an `if` of so many arms, with an `else` or without.
    #[tactic(auto, unfolding(stmt_machine::specs::Made::apply_stmt))]
    pub fn end_if(&mut self, alloc: Global, count: usize, with_else: bool) -> Result<bool, NoMemory>
        ensures { IfOk result (λ done.
            Does (apply_stmt (if_action count with_else) (made_of self.old)) done
            (made_of self.new)) }
    {
        if !with_else {
            return self.put_if_stmt(alloc, count, empty_row(alloc));
        }
        match self.bodies.pop() {
            None => Ok(false),
            Some(body) => self.put_if_stmt(alloc, count, body.row),
        }
    }

    // The end of a `while`.
    fn end_while(&mut self, row: Option<Row>) -> Result<bool, NoMemory>
        ensures { IfOk result (λ done.
            Does (plain.apply_loop_body loops.While (row_of row) (made_of self.old)) done
            (made_of self.new)) }
    {
        match self.values.pop() {
            None => Ok(false),
            Some(condition) => self.put(while_node(condition, row)),
        }
    }

    // The end of a `for`.
    fn end_for(
        &mut self,
        alloc: Global,
        begin: usize,
        condition: bool,
        next: usize,
        row: Option<Row>,
    ) -> Result<bool, NoMemory>
        ensures { IfOk result (λ done.
            Does (plain.apply_for begin condition next (row_of row) (made_of self.old)) done
            (made_of self.new)) }
    {
        let Some(next) = self.values.take_row(alloc, next)? else {
            return Ok(false);
        };
        let Some(condition) = self.values.take_row(alloc, if condition { 1 } else { 0 })? else {
            return Ok(false);
        };
        let Some(begin) = self.values.take_row(alloc, begin)? else {
            return Ok(false);
        };
        let begin = gather_exprs(alloc, begin)?;
        let next = gather_exprs(alloc, next)?;
        self.put(for_node(begin, maybe_value(condition), next, row))
    }

    // The end of a `foreach`, whose variables have to be such as may be written.
    fn end_each(
        &mut self,
        key: Option<Bytes>,
        value: Bytes,
        row: Option<Row>,
    ) -> Result<bool, NoMemory>
        ensures { IfOk result (λ done.
            Does (plain.apply_loop_body (loops.Each key value) (row_of row) (made_of self.old)) done
            (made_of self.new)) }
    {
        let Some(array) = self.values.pop() else {
            return Ok(false);
        };
        let holds = maybe_writable(&key) && is_writable(value.as_slice());
        self.put_if(holds, each_node(array, key, value, row))
    }

    /// The end of a loop.
    #[tactic(auto, unfolding(stmt_machine::specs::Made::apply_stmt))]
    pub fn end_loop(&mut self, alloc: Global, of: Loop) -> Result<bool, NoMemory>
        ensures { IfOk result (λ done.
            Does (apply_stmt (loop_action of) (made_of self.old)) done (made_of self.new)) }
    {
        let Some(body) = self.bodies.pop() else {
            return Ok(false);
        };
        match of {
            Loop::While => self.end_while(body.row),
            Loop::For {
                begin,
                condition,
                next,
            } => self.end_for(alloc, begin, condition, next, body.row),
            Loop::Each { key, value } => self.end_each(key, value, body.row),
        }
    }

    /// The end of a `do`.
    #[tactic(auto, unfolding(stmt_machine::specs::Made::apply_stmt))]
    pub fn end_do(&mut self) -> Result<bool, NoMemory>
        ensures { IfOk result (λ done.
            Does (apply_stmt do_action (made_of self.old)) done (made_of self.new)) }
    {
        let Some(condition) = self.values.pop() else {
            return Ok(false);
        };
        match self.bodies.pop() {
            None => Ok(false),
            Some(body) => self.put(do_node(body.row, condition)),
        }
    }
}
