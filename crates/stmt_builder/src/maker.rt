//! What a reader of statements has made.

ghost use Rattle.std.specs.Prelude.{◌≡◌, IfOk, Some, None, []};
ghost use Rattle.stmt_machine.specs.Actions.{open_action, inline_action, echo_action, run_action, break_action, continue_action, return_action, include_action, exit_action};
ghost use Rattle.stmt_machine.specs.Made as plain;
ghost use Rattle.stmt_machine.specs.Made.{apply_stmt, nothing_made};
ghost use Rattle.stmt_builder.specs.Views.{made_of, node_of};
ghost use Rattle.stmt_builder.specs.Answers.{Does};

use crate::body::{Body, add, empty_row};
use crate::functions::{Functions, Header};
use crate::names::is_text;
use crate::nodes::{echo_node, quit_node, return_node, run_node};
use crate::rows::gather_exprs;
use expr_builder::values::Values;
use php_syntax::tree::Stmt;
use std::alloc::Global;
use text_base::{Bytes, NoMemory, Stack};

/// What was made so far.
#[derive(Debug, Drop)]
pub struct Maker {
    /// The values that no statement has taken yet.
    pub values: Values,
    /// The bodies that are open.
    pub bodies: Stack<Body>,
    /// The function whose parameters and body are being read.
    pub header: Option<Header>,
    /// The functions; none are kept where one is over 200 high.
    pub functions: Option<Functions>,
}

impl Maker {
    /// At the beginning of a file.
    pub fn new(alloc: Global) -> Result<Maker, NoMemory>
        ensures { IfOk result (λ maker. made_of maker ≡ nothing_made) }
    {
        let mut bodies = Stack::new(alloc);
        bodies.push(Body {
            in_loop: false,
            in_function: false,
            row: empty_row(alloc),
        })?;
        Ok(Maker {
            values: Values::new(alloc),
            bodies,
            header: None,
            functions: Some(Functions::none(alloc)),
        })
    }

    /// One more statement in the innermost body.
    pub(crate) fn put(&mut self, node: Option<(Stmt, u32)>) -> Result<bool, NoMemory>
        ensures { IfOk result (λ done.
            Does (plain.put (node_of node) (made_of self.old)) done (made_of self.new)) }
    {
        match self.bodies.pop() {
            None => Ok(false),
            Some(body) => {
                let row = add(body.row, node)?;
                self.bodies.push(Body {
                    in_loop: body.in_loop,
                    in_function: body.in_function,
                    row,
                })?;
                Ok(true)
            }
        }
    }

    /// One more statement in the innermost body, where a rule holds.
    pub(crate) fn put_if(
        &mut self,
        holds: bool,
        node: Option<(Stmt, u32)>,
    ) -> Result<bool, NoMemory>
        ensures { IfOk result (λ done.
            Does (plain.put_if holds (node_of node) (made_of self.old)) done (made_of self.new)) }
    {
        if holds {
            return self.put(node);
        }
        Ok(false)
    }

    /// Whether the innermost body stands in a loop.
    pub(crate) fn in_loop(&self) -> bool
        ensures { result ≡ plain.stands_in_loop (made_of self.now).bodies }
    {
        match self.bodies.last() {
            None => false,
            Some(body) => body.in_loop,
        }
    }

    /// Whether the innermost body stands in a function.
    pub(crate) fn in_function(&self) -> bool
        ensures { result ≡ plain.stands_in_function (made_of self.now).bodies }
    {
        match self.bodies.last() {
            None => false,
            Some(body) => body.in_function,
        }
    }

    /// A body begins, of a loop or of an `if`.
    #[tactic(auto, unfolding(stmt_machine::specs::Made::apply_stmt))]
    pub fn open(&mut self, alloc: Global, of_loop: bool) -> Result<bool, NoMemory>
        ensures { IfOk result (λ done.
            Does (apply_stmt (open_action of_loop) (made_of self.old)) done (made_of self.new)) }
    {
        match self.bodies.last() {
            None => Ok(false),
            Some(body) => {
                let body = Body {
                    in_loop: of_loop || body.in_loop,
                    in_function: body.in_function,
                    row: empty_row(alloc),
                };
                self.bodies.push(body)?;
                Ok(true)
            }
        }
    }

    /// Inline text.
    #[tactic(auto, using(php_syntax::proofs::Views::views), unfolding(stmt_machine::specs::Made::apply_stmt))]
    pub fn inline(&mut self, alloc: Global, text: &Bytes) -> Result<bool, NoMemory>
        ensures { IfOk result (λ done.
            Does (apply_stmt (inline_action text.now) (made_of self.old)) done (made_of self.new)) }
    {
        let text = text.copy(alloc)?;
        self.put(Some((Stmt::Inline(text), 0)))
    }

    /// An `echo` of so many values.
    #[tactic(auto, unfolding(stmt_machine::specs::Made::apply_stmt))]
    pub fn echo(&mut self, alloc: Global, count: usize) -> Result<bool, NoMemory>
        ensures { IfOk result (λ done.
            Does (apply_stmt (echo_action count) (made_of self.old)) done (made_of self.new)) }
    {
        match self.values.take_row(alloc, count)? {
            None => Ok(false),
            Some(row) => {
                let node = echo_node(gather_exprs(alloc, row)?);
                self.put(node)
            }
        }
    }

    /// An expression as a statement.
    #[tactic(auto, unfolding(stmt_machine::specs::Made::apply_stmt))]
    pub fn run(&mut self) -> Result<bool, NoMemory>
        ensures { IfOk result (λ done.
            Does (apply_stmt run_action (made_of self.old)) done (made_of self.new)) }
    {
        match self.values.pop() {
            None => Ok(false),
            Some(value) => self.put(run_node(value)),
        }
    }

    /// A `break`, in a loop.
    #[tactic(auto, using(php_syntax::proofs::Views::views), unfolding(stmt_machine::specs::Made::apply_stmt))]
    pub fn break_off(&mut self) -> Result<bool, NoMemory>
        ensures { IfOk result (λ done.
            Does (apply_stmt break_action (made_of self.old)) done (made_of self.new)) }
    {
        let holds = self.in_loop();
        self.put_if(holds, Some((Stmt::Break, 0)))
    }

    /// A `continue`, in a loop.
    #[tactic(auto, using(php_syntax::proofs::Views::views), unfolding(stmt_machine::specs::Made::apply_stmt))]
    pub fn go_on(&mut self) -> Result<bool, NoMemory>
        ensures { IfOk result (λ done.
            Does (apply_stmt continue_action (made_of self.old)) done (made_of self.new)) }
    {
        let holds = self.in_loop();
        self.put_if(holds, Some((Stmt::Continue, 0)))
    }

    /// A `return`, in a function: of a value, or of none.
    #[tactic(auto, using(php_syntax::proofs::Views::views), unfolding(stmt_machine::specs::Made::apply_stmt))]
    pub fn give_back(&mut self, with_value: bool) -> Result<bool, NoMemory>
        ensures { IfOk result (λ done.
            Does (apply_stmt (return_action with_value) (made_of self.old)) done
            (made_of self.new)) }
    {
        let holds = self.in_function();
        if !with_value {
            return self.put_if(holds, Some((Stmt::Return(None), 0)));
        }
        match self.values.pop() {
            None => Ok(false),
            Some(value) => self.put_if(holds, return_node(value)),
        }
    }

    /// An `exit`: with an argument, or without one.
    #[tactic(auto, using(php_syntax::proofs::Views::views), unfolding(stmt_machine::specs::Made::apply_stmt))]
    pub fn quit(&mut self, with_value: bool) -> Result<bool, NoMemory>
        ensures { IfOk result (λ done.
            Does (apply_stmt (exit_action with_value) (made_of self.old)) done (made_of self.new)) }
    {
        if !with_value {
            return self.put(Some((Stmt::Quit(None), 0)));
        }
        match self.values.pop() {
            None => Ok(false),
            Some(value) => self.put(quit_node(value)),
        }
    }

    /// An `include`, of a path in UTF-8.
    #[tactic(auto, using(php_syntax::proofs::Views::views), unfolding(stmt_machine::specs::Made::apply_stmt))]
    pub fn include(&mut self, alloc: Global, path: &Bytes) -> Result<bool, NoMemory>
        ensures { IfOk result (λ done.
            Does (apply_stmt (include_action path.now) (made_of self.old)) done
            (made_of self.new)) }
    {
        let holds = is_text(path.as_slice());
        let path = path.copy(alloc)?;
        self.put_if(holds, Some((Stmt::Include(path), 0)))
    }
}
